//! Rules and ended eras in each format.

use crate::Format;
use crate::field::{Element, put_list};
use crate::json::put_object;
use crate::put::{Put, put_number, put_string, put_text};
use crate::value::{Value, hidden, key, number_if, of_text};
use crate::word::reason_word;
use rule_book::{Ended, Rule};

/// Writes what a rule says, in parentheses.
pub(crate) fn put_sentence(text: &mut String, rule: Rule) -> Put {
    put_text(text, " (")?;
    put_text(text, rule.sentence())?;
    put_text(text, ")")
}

impl Element for Rule {
    fn put(&self, text: &mut String, format: Format) -> Put {
        match format {
            Format::Text => {
                put_text(text, " ")?;
                put_text(text, self.name())
            }
            Format::Json => put_string(text, self.name()),
            Format::Table => put_text(text, self.name()),
        }
    }
}

/// Writes the field of the rules that are named; as text with what they say.
pub(crate) fn put_explained(text: &mut String, format: Format, list: &[Rule]) -> Put {
    if format != Format::Text {
        return put_list(text, format, key!("rules"), list);
    }
    for rule in list {
        rule.put(text, format)?;
        put_sentence(text, *rule)?;
    }
    Ok(())
}

// Writes a number after a lead, where it is present.
fn put_led(text: &mut String, lead: &str, number: Option<u64>) -> Put {
    let Some(number) = number else {
        return Ok(());
    };
    put_text(text, lead)?;
    put_number(text, number)
}

// Writes an era that ended with these texts before the era, the reason and the octets.
fn put_ended(text: &mut String, leads: [&str; 3], ended: Ended) -> Put {
    put_led(text, leads[0], Some(u64::from(ended.era)))?;
    put_text(text, leads[1])?;
    put_text(text, reason_word(ended.reason))?;
    put_led(text, leads[2], ended.octets)
}

impl Element for Ended {
    fn put(&self, text: &mut String, format: Format) -> Put {
        match format {
            Format::Text => put_ended(text, [" ends era ", " ", " octets "], *self),
            Format::Table => put_ended(text, ["", ":", ":"], *self),
            Format::Json => put_object(
                text,
                &[
                    hidden!("era", Value::Number(u64::from(self.era))),
                    hidden!("reason", of_text(reason_word(self.reason))),
                    hidden!("octets", number_if(self.octets)),
                ],
            ),
        }
    }
}
