ghost use Rattle.std.specs.Prelude.{◌≡◌, Some, map, string_bytes};
ghost use Rattle.nesc_base.specs.declared.geometry.Geometry.{Geometry};
ghost use Rattle.nesc_base.specs.Geometry.{IsGeometry};
ghost use Rattle.text_kit.specs.Number.{number_of};
ghost use Rattle.nesc_monitor.specs.Words.{between, command_of, make_of};
ghost use Rattle.nesc_monitor.specs.declared.words.Command.TheVariants.{Make};

use nesc_base::Geometry;
use text_kit::number;

/// How many data blocks may change between two commits where the words do not say it: the fewest.
const DEFAULT_SLACK: &[u8] = b"64";

/// A command of the program.
#[derive(Clone, Copy, Debug, PartialEq, Eq)]
pub enum Command {
    /// The steps of a schedule are taken.
    Run,
    /// An image is made.
    Make(Geometry),
}

/// The command that the words of the command line are, if they are one.
pub fn read_words(words: &[String]) -> Option<Command>
    ensures command { result ≡ command_of (map string_bytes words.now) }
    ensures sizes { (geometry : Geometry) → result ≡ Some (Make geometry) → IsGeometry geometry }
{
    match words {
        [name] if name.as_str() == "run" => Some(Command::Run),
        [name, key, blocks] if name.as_str() == "make" && key.as_str() == "--blocks" => {
            make_of(blocks.as_bytes(), DEFAULT_SLACK)
        }
        [name, key, blocks, other, slack]
            if name.as_str() == "make"
                && key.as_str() == "--blocks"
                && other.as_str() == "--slack" => { make_of(blocks.as_bytes(), slack.as_bytes()) }
        _ => None,
    }
}

/// The command to make an image of so many data blocks, with so much slack.
fn make_of(blocks: &[u8], slack: &[u8]) -> Option<Command>
    ensures command { result ≡ make_of blocks.now slack.now }
    ensures sizes { (geometry : Geometry) → result ≡ Some (Make geometry) → IsGeometry geometry }
{
    Some(Command::Make(Geometry {
        version: 1,
        blocks: number_between(blocks, Geometry::LEAST_BLOCKS, Geometry::MOST_BLOCKS)?,
        slack: number_between(slack, Geometry::LEAST_SLACK, Geometry::MOST_SLACK)?,
    }))
}

/// The number that a word writes, if it is one between these two.
fn number_between(word: &[u8], least: u32, most: u32) -> Option<u32>
    ensures { result ≡ between least most (number_of word.now) }
{
    let n = number(word)?;
    if u64::from(least) <= n && n <= u64::from(most) {
        Some(n as u32)
    } else {
        None
    }
}
