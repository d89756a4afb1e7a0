//! The gate that words ask for.
ghost use Rattle.std.specs.Prelude.{◌≡◌, [], ◌∷◌, ◌++◌, IfOk, IfErr, map, string_bytes};
ghost use Rattle.norm_settings.specs.SettingValues.{plain_settings, AreInRange};
ghost use Rattle.norm_c.specs.Opening as spec;
ghost use Rattle.norm_c.specs.working.Openings as working;

use norm_gate::{Frames, Gate};
use norm_settings::{Command, Settings, WordFault, read_words};
use std::alloc::Global;
use std::mem::replace;

/// Reasons why a gate is not opened.
#[derive(Clone, Copy, Debug, PartialEq, Eq, Drop)]
pub enum OpenFault {
    /// Memory could not be allocated.
    NoMemory,
    /// The words are not those of a run.
    NoRun,
    /// They ask for more than one engine does.
    Unfit,
}

/// Opens a gate for frames of this kind, with the settings that these words ask for.
pub(crate) fn open_gate(alloc: Global, given: Frames, words: &[u8]) -> Result<Box<Gate>, OpenFault>
    ensures ok { IfOk result (λ gate. working.Opens given words.now gate.value) }
    ensures err { IfErr result (working.Explains words.now) }
{
    let settings = settings_told(alloc, words)?;
    let Ok(gate) = Gate::open(alloc, settings, given) else {
        return Err(OpenFault::NoMemory);
    };
    match Box::new(alloc, gate) {
        Ok(gate) => Ok(gate),
        Err(_) => Err(OpenFault::NoMemory),
    }
}

// Returns the settings that these words ask for.
fn settings_told(alloc: Global, words: &[u8]) -> Result<Settings, OpenFault>
    ensures asked { IfOk result (λ settings. spec.AreAsked (spec.words_in words.now) (plain_settings settings)) }
    ensures range { IfOk result (λ settings. AreInRange (plain_settings settings)) }
    ensures err { IfErr result (working.Explains words.now) }
{
    let list = words_in(alloc, words)?;
    settings_of(alloc, &list)
}

// Returns the settings that these words ask for, if one engine does what they ask.
fn settings_of(alloc: Global, words: &[String]) -> Result<Settings, OpenFault>
    ensures asked { IfOk result (λ settings. spec.AreAsked (map string_bytes words.now) (plain_settings settings)) }
    ensures range { IfOk result (λ settings. AreInRange (plain_settings settings)) }
    ensures err { IfErr result (working.Refuses (map string_bytes words.now)) }
{
    match read_words(alloc, words) {
        Ok(
            Command::Run {
                names: _names,
                settings,
            },
        ) => {
            if settings.both || settings.inside.is_some() {
                return Err(OpenFault::Unfit);
            }
            Ok(settings)
        }
        Ok(Command::Load { .. }) => Err(OpenFault::NoRun),
        Err(WordFault::NoMemory) => Err(OpenFault::NoMemory),
        Err(_) => Err(OpenFault::NoRun),
    }
}

// Returns the words of a text, with one space between each two.
fn words_in(alloc: Global, text: &[u8]) -> Result<Vec<String>, OpenFault>
    ensures ok { IfOk result (λ words. map string_bytes words.items ≡ spec.words_in text.now) }
    ensures err { IfErr result (working.ExplainsWords text.now) }
{
    let mut words = Vec::new(alloc);
    let mut word = Vec::new(alloc);
    for &octet in text {
        if octet == 32 {
            let ended = replace(&mut word, Vec::new(alloc));
            if let Err(fault) = push_word(&mut words, ended) {
                return Err(fault);
            }
        } else if word.push(octet).is_err() {
            return Err(OpenFault::NoMemory);
        }
    }
    match push_word(&mut words, word) {
        Ok(()) => Ok(words),
        Err(fault) => Err(fault),
    }
}

// Adds a word of these octets.
fn push_word(words: &mut Vec<String>, word: Vec<u8>) -> Result<(), OpenFault>
    ensures ok { IfOk result (λ _. map string_bytes words.new.items ≡ map string_bytes words.old.items ++ word.items ∷ []) }
    ensures err { IfErr result (working.ExplainsWord word.items) }
{
    let Ok(word) = String::from_utf8(word) else {
        return Err(OpenFault::NoRun);
    };
    match words.push(word) {
        Ok(()) => Ok(()),
        Err(_) => Err(OpenFault::NoMemory),
    }
}
