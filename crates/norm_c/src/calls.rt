//! The calls of contrib/lib/norm.h.
ghost use Rattle.std.specs.Prelude.{◌≡◌, ◌≤◌, ◌<◌, ◌⊎◌, ◌↔◌, [], ◌∷◌, Some, None, length, map, slice_get, take};
ghost use Rattle.rule_book.specs.Text.{entry_text, first_line, last_text};
ghost use Rattle.rule_book.specs.declared.last.Last.TheVariants.{End};
ghost use Rattle.norm_c.specs.Numbers.{frames_numbered};
ghost use Rattle.norm_c.specs.Exports as spec;
ghost use Rattle.wire_base.specs.declared.limits.TheConstants.{MAX_FRAME};

use crate::handle::{Handle, put_gate, take_gate};
use crate::numbers::{answer_words, arrival_told, frame_words, frames_numbered};
use crate::opening::{OpenFault, open_gate};
use crate::plain::{
    AnswerWords, ArrivalWords, CLOSED, DONE, FULL, FrameWords, GATE, GateWords, NO_INDEX,
    NO_MEMORY, NO_ROOM, PORT, UNFIT, WORDS,
};
use norm_gate::{Frames, Gate};
use std::alloc::Global;
use wire_base::MAX_FRAME;

/// Opens a gate with the settings of these words, which are those of the command line with one
/// space between each two, in place of the gate that the handle has.
#[unsafe(no_mangle)]
pub extern "C" fn norm_open(
    alloc: Global,
    handle: &mut Handle,
    gate: &GateWords,
    words: &[u8],
) -> u32
    ensures done { result ≡ DONE → spec.Has (spec.IsOpened gate.now.frames words.now) handle.new.value }
    ensures closed { (result ≡ DONE) ⊎ (handle.new.value ≡ None) }
    ensures words { result ≡ WORDS → spec.IsNoRun words.now }
    ensures unfit { result ≡ UNFIT → spec.AreUnfit (spec.words_in words.now) }
    ensures gate { (result ≡ GATE) ↔ (frames_numbered gate.now.frames ≡ None) }
    ensures known { spec.IsOneOf (DONE ∷ NO_MEMORY ∷ WORDS ∷ UNFIT ∷ GATE ∷ []) result }
{
    let _former = take_gate(handle, alloc);
    let Some(given) = frames_numbered(gate.frames) else {
        return GATE;
    };
    match open_gate(alloc, given, words) {
        Ok(gate) => {
            put_gate(handle, gate, alloc);
            DONE
        }
        Err(OpenFault::NoMemory) => NO_MEMORY,
        Err(OpenFault::NoRun) => WORDS,
        Err(OpenFault::Unfit) => UNFIT,
    }
}

/// Judges a frame. Allocates no memory.
#[unsafe(no_mangle)]
pub extern "C" fn norm_step(
    alloc: Global,
    handle: &mut Handle,
    arrival: &ArrivalWords,
    frame: &[u8],
    answer: &mut AnswerWords,
) -> u32
    ensures done { result ≡ DONE → spec.Both (spec.StepsTo arrival.now frame.now answer.new) handle.old.value handle.new.value }
    ensures kept { (result ≡ DONE) ⊎ ((handle.new.value ≡ handle.old.value) × (answer.new ≡ answer.old)) }
    ensures closed { (result ≡ CLOSED) ↔ (handle.old.value ≡ None) }
    ensures port { (result ≡ PORT) ↔ spec.Has (spec.HasNoPort arrival.now.port) handle.old.value }
    ensures full { (result ≡ FULL) ↔ spec.Has (spec.IsFull arrival.now.port) handle.old.value }
    ensures known { spec.IsOneOf (DONE ∷ CLOSED ∷ PORT ∷ FULL ∷ []) result }
{
    match take_gate(handle, alloc) {
        None => CLOSED,
        Some(mut gate) => {
            let result = step(&mut gate, arrival, frame, answer);
            put_gate(handle, gate, alloc);
            result
        }
    }
}

// Judges a frame, unless its port does not exist or there were too many records.
#[inline]
fn step(gate: &mut Gate, arrival: &ArrivalWords, frame: &[u8], answer: &mut AnswerWords) -> u32
    ensures done { result ≡ DONE → spec.StepsTo arrival.now frame.now answer.new gate.old gate.new }
    ensures kept { (result ≡ DONE) ⊎ ((gate.new ≡ gate.old) × (answer.new ≡ answer.old)) }
    ensures port { (result ≡ PORT) ↔ spec.HasNoPort arrival.now.port gate.old }
    ensures full { (result ≡ FULL) ↔ spec.IsFull arrival.now.port gate.old }
    ensures known { spec.IsOneOf (DONE ∷ PORT ∷ FULL ∷ []) result }
{
    if gate.given() == Frames::Ports && arrival.port > 1 {
        return PORT;
    }
    if gate.records() == u32::MAX {
        return FULL;
    }
    let told = gate.step(&arrival_told(arrival), frame);
    *answer = answer_words(&told);
    DONE
}

/// Copies the frame at this index, counted from 0, that is written for the newest frame.
#[unsafe(no_mangle)]
pub extern "C" fn norm_frame(
    alloc: Global,
    handle: &mut Handle,
    index: u32,
    into: &mut [u8],
    frame: &mut FrameWords,
) -> u32
    ensures done { result ≡ DONE → spec.Has (spec.HasFrame index frame.new into.new) handle.old.value }
    ensures unwritten { (result ≡ DONE) ⊎ ((into.new ≡ into.old) × (frame.new ≡ frame.old)) }
    ensures kept { handle.new.value ≡ handle.old.value }
    ensures closed { (result ≡ CLOSED) ↔ (handle.old.value ≡ None) }
    ensures index { (result ≡ NO_INDEX) ↔ spec.Has (λ gate. length gate.leaving ≤ index) handle.old.value }
    ensures room { result ≡ NO_ROOM → length into.old < MAX_FRAME }
    ensures known { spec.IsOneOf (DONE ∷ CLOSED ∷ NO_INDEX ∷ NO_ROOM ∷ []) result }
{
    match take_gate(handle, alloc) {
        None => CLOSED,
        Some(gate) => {
            let result = copy_frame(&gate, index, into, frame);
            put_gate(handle, gate, alloc);
            result
        }
    }
}

fn copy_frame(gate: &Gate, index: u32, into: &mut [u8], frame: &mut FrameWords) -> u32
    ensures done { result ≡ DONE → spec.HasFrame index frame.new into.new gate.now }
    ensures unwritten { (result ≡ DONE) ⊎ ((into.new ≡ into.old) × (frame.new ≡ frame.old)) }
    ensures index { (result ≡ NO_INDEX) ↔ (length gate.now.leaving ≤ index) }
    ensures room { result ≡ NO_ROOM → length into.old < MAX_FRAME }
    ensures known { spec.IsOneOf (DONE ∷ NO_INDEX ∷ NO_ROOM ∷ []) result }
{
    if gate.frames() <= index {
        return NO_INDEX;
    }
    if into.len() < MAX_FRAME {
        return NO_ROOM;
    }
    let written = gate.frame(index as usize, into);
    *frame = frame_words(&written);
    DONE
}

/// Writes the line of the report of the record at this index, counted from 0, of the newest frame;
/// the buffer has at least 400 octets.
#[unsafe(no_mangle)]
pub extern "C" fn norm_line(
    alloc: Global,
    handle: &mut Handle,
    index: u32,
    into: &mut [u8],
    size: &mut usize,
) -> u32
    ensures done { result ≡ DONE → spec.Has (λ gate. slice_get (map entry_text gate.entries) index ≡ Some (take size.new into.new)) handle.old.value }
    ensures unwritten { (result ≡ DONE) ⊎ ((into.new ≡ into.old) × (size.new ≡ size.old)) }
    ensures kept { handle.new.value ≡ handle.old.value }
    ensures closed { (result ≡ CLOSED) ↔ (handle.old.value ≡ None) }
    ensures index { (result ≡ NO_INDEX) ↔ spec.Has (λ gate. length gate.entries ≤ index) handle.old.value }
    ensures room { result ≡ NO_ROOM → length into.old < 400 }
    ensures known { spec.IsOneOf (DONE ∷ CLOSED ∷ NO_INDEX ∷ NO_ROOM ∷ []) result }
{
    match take_gate(handle, alloc) {
        None => CLOSED,
        Some(gate) => {
            let result = write_line(&gate, index, into, size);
            put_gate(handle, gate, alloc);
            result
        }
    }
}

fn write_line(gate: &Gate, index: u32, into: &mut [u8], size: &mut usize) -> u32
    ensures done { result ≡ DONE → slice_get (map entry_text gate.now.entries) index ≡ Some (take size.new into.new) }
    ensures unwritten { (result ≡ DONE) ⊎ ((into.new ≡ into.old) × (size.new ≡ size.old)) }
    ensures index { (result ≡ NO_INDEX) ↔ (length gate.now.entries ≤ index) }
    ensures room { result ≡ NO_ROOM → length into.old < 400 }
    ensures known { spec.IsOneOf (DONE ∷ NO_INDEX ∷ NO_ROOM ∷ []) result }
{
    if gate.lines() <= index {
        return NO_INDEX;
    }
    if into.len() < 400 {
        return NO_ROOM;
    }
    *size = gate.line(into);
    DONE
}

/// Writes the first line of the report; the buffer has at least 64 octets.
#[unsafe(no_mangle)]
pub extern "C" fn norm_first(
    alloc: Global,
    handle: &mut Handle,
    into: &mut [u8],
    size: &mut usize,
) -> u32
    ensures done { result ≡ DONE → take size.new into.new ≡ first_line 2 }
    ensures unwritten { (result ≡ DONE) ⊎ ((into.new ≡ into.old) × (size.new ≡ size.old)) }
    ensures kept { handle.new.value ≡ handle.old.value }
    ensures closed { (result ≡ CLOSED) ↔ (handle.old.value ≡ None) }
    ensures room { result ≡ NO_ROOM → length into.old < 64 }
    ensures known { spec.IsOneOf (DONE ∷ CLOSED ∷ NO_ROOM ∷ []) result }
{
    match take_gate(handle, alloc) {
        None => CLOSED,
        Some(gate) => {
            put_gate(handle, gate, alloc);
            if into.len() < 64 {
                return NO_ROOM;
            }
            into[..7].copy_from_slice(b"norm 2\n");
            *size = 7;
            DONE
        }
    }
}

/// Writes the last line of the report, over all records so far; the buffer has at least 64 octets.
#[unsafe(no_mangle)]
pub extern "C" fn norm_last(
    alloc: Global,
    handle: &mut Handle,
    into: &mut [u8],
    size: &mut usize,
) -> u32
    ensures done { result ≡ DONE → spec.Has (λ gate. take size.new into.new ≡ last_text (End gate.live.engine.records gate.live.written)) handle.old.value }
    ensures unwritten { (result ≡ DONE) ⊎ ((into.new ≡ into.old) × (size.new ≡ size.old)) }
    ensures kept { handle.new.value ≡ handle.old.value }
    ensures closed { (result ≡ CLOSED) ↔ (handle.old.value ≡ None) }
    ensures room { result ≡ NO_ROOM → length into.old < 64 }
    ensures known { spec.IsOneOf (DONE ∷ CLOSED ∷ NO_ROOM ∷ []) result }
{
    match take_gate(handle, alloc) {
        None => CLOSED,
        Some(gate) => {
            let result = write_last(&gate, into, size);
            put_gate(handle, gate, alloc);
            result
        }
    }
}

fn write_last(gate: &Gate, into: &mut [u8], size: &mut usize) -> u32
    ensures done { result ≡ DONE → take size.new into.new ≡ last_text (End gate.now.live.engine.records gate.now.live.written) }
    ensures unwritten { (result ≡ DONE) ⊎ ((into.new ≡ into.old) × (size.new ≡ size.old)) }
    ensures room { result ≡ NO_ROOM → length into.old < 64 }
    ensures known { spec.IsOneOf (DONE ∷ NO_ROOM ∷ []) result }
{
    if into.len() < 64 {
        return NO_ROOM;
    }
    *size = gate.last(into);
    DONE
}

/// Closes a handle, open or not, and frees its memory.
#[unsafe(no_mangle)]
pub extern "C" fn norm_close(alloc: Global, handle: &mut Handle)
    ensures { handle.new.value ≡ None }
{
    let _old = take_gate(handle, alloc);
}
