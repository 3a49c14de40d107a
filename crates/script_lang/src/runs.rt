ghost use Rattle.std.specs.Prelude.{◌≡◌, length, map, IfOk, IfSome, OnOk};
ghost use Rattle.script_lang.specs.Entries.{IsCount};
ghost use Rattle.script_lang.specs.Parts.{Says};
ghost use Rattle.script_lang.specs.Runs.{asked_run_of, blocks_of, written_run_of};
ghost use Rattle.script_lang.specs.Stored.{Grows, IsStored, blocks_at};

use crate::fault::Unread;
use crate::numbers::{block_number_of, count_of};
use crate::store::{Store, StoredRun};
use nesc_base::MOST_IN_REQUEST;
use text_kit::read_block;

/// The blocks of some texts, 1 to 64 of them, from a block of a file on. They are put behind those of the store.
fn blocks_from(store: &mut Store, v: u32, texts: &[&[u8]]) -> Result<StoredRun, Unread>
    ensures read { Says (blocks_at store.new) result (blocks_of (map (λ text. text.now) texts.now)) }
    ensures from { IfOk result (λ run. run.v ≡ v) }
    ensures stored { IfOk result (IsStored (length store.new)) }
    ensures grows { OnOk result (Grows store.old store.new) }
{
    if texts.is_empty() || texts.len() > MOST_IN_REQUEST as usize {
        return Err(Unread::Bad);
    }
    let first = store.place()?;
    for text in texts {
        let block = read_block(text).ok_or(Unread::Bad)?;
        store.push(&block)?;
    }
    let count = texts.len() as u32;
    Ok(StoredRun { v, first, count })
}

/// V BLOCK.., the blocks to write, which are put behind those of the store.
pub fn written_run_of(store: &mut Store, words: &[&[u8]]) -> Result<StoredRun, Unread>
    ensures read { Says
        (λ run. (run.v, blocks_at store.new run)) result (written_run_of (map (λ word. word.now) words.now)) }
    ensures stored { IfOk result (IsStored (length store.new)) }
    ensures grows { OnOk result (Grows store.old store.new) }
{
    let [v, texts @ ..] = words else {
        return Err(Unread::Bad);
    };
    let v = block_number_of(v).ok_or(Unread::Bad)?;
    blocks_from(store, v, texts)
}

/// V N, how many blocks are asked for from there on.
pub fn asked_run_of(words: &[&[u8]]) -> Option<(u32, u32)>
    ensures read { result ≡ asked_run_of (map (λ word. word.now) words.now) }
    ensures count { IfSome result (λ run. IsCount run.1) }
{
    let [v, n] = words else { return None };
    let v = block_number_of(v)?;
    Some((v, count_of(n)?))
}
