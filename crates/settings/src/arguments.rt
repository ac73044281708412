// The arguments of a program.
ghost use Rattle.std.specs.Prelude.{drop, map, string_bytes};
ghost use Rattle.std.specs.Vec.Iter.{into_iter_items};
ghost use Rattle.settings.specs.Settings.{ReadsArguments};

use crate::setting::{Setting, Wrong, choose};
use std::env::Args;

/// The setting that a program's arguments choose: behind the program's own name, the three words of
/// `choose`. Any other count of words is wrong.
pub fn read_setting(mut args: Args) -> Result<Setting, Wrong>
    ensures { ReadsArguments (map string_bytes (drop 1 (into_iter_items args))) result }
{
    let _ = args.next();
    match (args.next(), args.next(), args.next(), args.next()) {
        (Some(detection), Some(table), Some(order), None) => choose(detection, table, order),
        _ => Err(Wrong::Count),
    }
}
