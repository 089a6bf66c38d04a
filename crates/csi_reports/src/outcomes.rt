//! What came of events, in a report.
ghost use Rattle.std.specs.Prelude.{◌≡◌, ◌++◌, OnOk, codes, decimal, string_bytes};
ghost use Rattle.std.specs.List.{flat_map};
ghost use Rattle.json.specs.Tree.{json_tokens};
ghost use Rattle.serde_json.specs.Written.{outline};
ghost use Rattle.csi_reports.specs.Public.Entries.{entries};
ghost use Rattle.csi_reports.specs.Public.Outcomes.{outcome_entry};

use crate::writer::JsonWriter;
use csi_world::{Outcome, text_of};
use itoa::Buffer;
use std::alloc::{AllocError, Global};

// Makes a text of these words and a number.
fn set_numbered(text: &mut String, words: &str, number: u64) -> Result<(), AllocError>
    ensures { OnOk result (string_bytes text.new ≡ words.now ++ decimal number) }
{
    let mut digits = Buffer::new();
    text.clear();
    text.push_str(words)?;
    text.push_str(digits.format(number))
}

// Writes the text of an outcome, by `text` where it has a number: what comes often takes no memory of its own.
fn write_outcome(
    alloc: Global,
    out: &mut JsonWriter,
    text: &mut String,
    outcome: Outcome,
) -> Result<(), AllocError>
    ensures { OnOk result (out.new ≡ out.old ++ json_tokens (outline (outcome_entry outcome))) }
{
    match outcome {
        Outcome::Sent(number) => {
            set_numbered(text, "sent ", number)?;
            out.text(text.as_str())
        }
        Outcome::Answered(number) => {
            set_numbered(text, "answered ", number)?;
            out.text(text.as_str())
        }
        Outcome::Taken(Some(number)) => {
            set_numbered(text, "taken, sent ", number)?;
            out.text(text.as_str())
        }
        Outcome::Taken(None) => out.text("taken"),
        rare => {
            let text = text_of(alloc, rare)?;
            out.text(text.as_str())
        }
    }
}

// Writes the texts of these outcomes, one after another.
fn write_each(alloc: Global, out: &mut JsonWriter, items: &[Outcome]) -> Result<(), AllocError>
    ensures { OnOk result (out.new ≡ out.old ++ flat_map (λ item. json_tokens (outline (outcome_entry item))) items.now) }
{
    let mut text = String::new(alloc);
    for outcome in items {
        write_outcome(alloc, out, &mut text, *outcome)?;
    }
    Ok(())
}

/// Writes the texts of these outcomes, in order, as an array.
#[tactic(auto, using(crate::proofs::WrittenLists::array_written))]
pub fn write_outcomes(
    alloc: Global,
    out: &mut JsonWriter,
    items: &[Outcome],
) -> Result<(), AllocError>
    ensures { OnOk result (out.new ≡ out.old ++ json_tokens (outline (entries outcome_entry items.now))) }
{
    out.begin_array()?;
    write_each(alloc, out, items)?;
    out.end_array()
}
