use block_map::BlockMap;
use nesc_base::{FileNo, Geometry, LONGEST_FILE, MOST_FILES, NoMemory, Run, Runs};
use std::alloc::Global;

const LEAST: Geometry = Geometry {
    version: 1,
    blocks: 16,
    slack: 64,
};

const GREATEST: Geometry = Geometry {
    version: 1,
    blocks: 65_536,
    slack: 64,
};

/// Gives a data block to a block of a file, or answers `None` where none is free or the block is held.
fn give(map: &mut BlockMap, file: u16, v: u32) -> Option<u32> {
    if file == 0 || file > MOST_FILES || v >= LONGEST_FILE {
        return None;
    }
    match map.place(FileNo(file), v) {
        Some(_) => None,
        None => map.give(FileNo(file), v),
    }
}

/// The runs of a file, each as its first block, how many it has and its first place.
fn runs_of(alloc: Global, map: &BlockMap, file: u16) -> Result<Vec<(u32, u32, u32)>, NoMemory> {
    let runs = map.runs(FileNo(file));
    let mut told = Vec::new(alloc);
    for k in 0..runs.count() {
        if let Some(
            Run {
                first,
                count,
                place,
            },
        ) = runs.run(k)
        {
            told.push((first, count, place))?;
        }
    }
    Ok(told)
}

#[test]
fn runs_are_cut_and_joined(rt: HostRuntime) -> Result<(), NoMemory> {
    let alloc = rt.alloc();
    let mut map = BlockMap::new(alloc, LEAST)?;
    // The blocks of one file stand in rising order at 275 and up, but for one of another file among them.
    for (file, v, at) in [
        (1, 3, 275),
        (1, 4, 276),
        (2, 5, 277),
        (1, 5, 278),
        (1, 6, 279),
        (1, 9, 280),
    ] {
        assert!(rt; give(&mut map, file, v) == Some(at));
    }
    assert!(rt; runs_of(alloc, &map, 1)?[..] == [(3, 2, 275), (5, 2, 278), (9, 1, 280)]);
    // The middle of a run, its first block and its last.
    assert!(rt; map.take_back(FileNo(1), 4) == Some(276));
    assert!(rt; map.take_back(FileNo(1), 5) == Some(278));
    assert!(rt; map.take_back(FileNo(1), 9) == Some(280));
    assert!(rt; map.take_back(FileNo(1), 9).is_none());
    assert!(rt; runs_of(alloc, &map, 1)?[..] == [(3, 1, 275), (6, 1, 279)]);
    assert!(rt; map.lowest_free() == Some(276) && map.free() == 13);
    // One that goes on a run, one that a run goes on, and one that joins two.
    assert!(rt; give(&mut map, 1, 4) == Some(276));
    assert!(rt; give(&mut map, 1, 5) == Some(278));
    assert!(rt; runs_of(alloc, &map, 1)?[..] == [(3, 2, 275), (5, 2, 278)]);
    assert!(rt;
        map.take_back(FileNo(2), 5) == Some(277) && map.take_back(FileNo(1), 5) == Some(278)
    );
    assert!(rt; give(&mut map, 1, 5) == Some(277) && map.take_back(FileNo(1), 6) == Some(279));
    assert!(rt; give(&mut map, 1, 6) == Some(278) && map.take_back(FileNo(1), 5) == Some(277));
    assert!(rt; runs_of(alloc, &map, 1)?[..] == [(3, 2, 275), (6, 1, 278)]);
    assert!(rt; give(&mut map, 1, 5) == Some(277));
    assert!(rt; runs_of(alloc, &map, 1)?[..] == [(3, 4, 275)]);
    assert!(rt;
        map.next_held(FileNo(1), 5) == Some((5, 277)) && map.last_held(FileNo(1)) == Some((6, 278))
    );
    Ok(())
}

#[test]
fn a_whole_map_is_held_and_given_back(rt: HostRuntime) -> Result<(), NoMemory> {
    let mut map = BlockMap::new(rt.alloc(), GREATEST)?;
    let from = GREATEST.area_from();
    // Falling blocks in rising places make each block a run of its own.
    for file in 1..=32 {
        let first = from + u32::from(file - 1) * 2_048;
        for k in 0..2_048 {
            assert!(rt; give(&mut map, file, 2_047 - k) == Some(first + k));
        }
    }
    assert!(rt;
        map.free() == 0 && map.lowest_free().is_none() && give(&mut map, 1, 2_048).is_none()
    );
    assert!(rt; map.held(FileNo(1)) == 2_048 && map.runs(FileNo(1)).count() == 2_048);
    for k in 0..65_536 {
        // An odd factor names each block of a file once.
        let (file, v) = (32 - (k / 2_048) as u16, k % 2_048 * 1_031 % 2_048);
        let first = from + u32::from(file - 1) * 2_048;
        assert!(rt; map.take_back(FileNo(file), v) == Some(first + (2_047 - v)));
    }
    assert!(rt; map.free() == 65_536 && map.runs(FileNo(1)).count() == 0);
    Ok(())
}
