// The setting of a book, by three words.
ghost use Rattle.std.specs.Prelude.{Some, string_bytes};
ghost use Rattle.settings.specs.Names.{IsNameOf, detection_name};
ghost use Rattle.settings.specs.Settings.{Chooses, wrong_words};

use crate::any_order::AnyOrder;
use crate::any_table::AnyTable;
use model::state::Detection;
use std::error::Error;
use std::fmt;

/// What three words choose.
#[derive(Clone, Copy)]
pub struct Setting {
    pub detection: Detection,
    pub table: AnyTable,
    pub order: AnyOrder,
}

/// What is wrong with the words; a wrong one is kept to be shown.
#[derive(Debug, Drop)]
pub enum Wrong {
    /// The words are no text.
    Unreadable,
    /// There are not as many words as a setting has.
    Count,
    /// No detection has this name.
    Detection(String),
    /// No table has this name.
    Table(String),
    /// No order has this name.
    Order(String),
}

impl fmt::Display for Wrong {
    ghost output = { λ wrong. Some (wrong_words wrong) };

    fn fmt<W: fmt::Write>(&self, f: &mut fmt::Formatter<W>) -> fmt::Result {
        match self {
            Wrong::Unreadable => f.write_str("the arguments cannot be read as text"),
            Wrong::Count => f.write_str("there have to be no arguments or three"),
            Wrong::Detection(word) => write!(
                f,
                "DETECTION is continuous or periodic, not '{word}'"
            ),
            Wrong::Table(word) => write!(f, "TABLE is two, five or span, not '{word}'"),
            Wrong::Order(word) => write!(
                f,
                "ORDER is newest, lightest or fewest, or two of these with a comma between, not '{word}'"
            ),
        }
    }
}

impl Error for Wrong {}

/// The detection of a name: `continuous` or `periodic`.
pub fn detection_named(word: &str) -> Option<Detection>
    ensures { IsNameOf detection_name word.now result }
{
    match word {
        "continuous" => Some(Detection::Continuous),
        "periodic" => Some(Detection::Periodic),
        _ => None,
    }
}

/// The setting of three words; or the first of them that is wrong.
pub fn choose(detection: String, table: String, order: String) -> Result<Setting, Wrong>
    ensures { Chooses (string_bytes detection) (string_bytes table) (string_bytes order) result }
{
    let Some(detection) = detection_named(&detection) else {
        return Err(Wrong::Detection(detection));
    };
    let Ok(table) = table.parse() else {
        return Err(Wrong::Table(table));
    };
    let Ok(order) = order.parse() else {
        return Err(Wrong::Order(order));
    };
    Ok(Setting {
        detection,
        table,
        order,
    })
}
