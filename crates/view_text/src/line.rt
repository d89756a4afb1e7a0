//! The lines of the view.

use crate::eras::{era_lead, put_era};
use crate::field::{begun, end_line, put_fields};
use crate::notes::{note_name, put_note};
use crate::put::put_text;
use crate::records::put_record;
use crate::run_summary::put_summary;
use crate::value::{Part, Value, hidden, of_text, shown};
use crate::{EraView, EvidenceCounts, Format, ShownLine, Summary};
use edge_io::NoMemory;
use run_notes::Note;
use std::alloc::Global;

// The heading of a table of records.
#[rattlefmt::skip]
const RECORD_HEADING: &str = "record\tby\tnumber\ttime\tseconds\tnanoseconds\tside\tsrc_ip\tsrc_port\tdest_ip\t\
    dest_port\tproto\tethertype\tflags\tseq\tack\twindow\ticmp_type\ticmp_code\tid\t\
    offset\tmore\tlength\tverdict\tera\tbegun\tended\trules\tframes\tgiven\tframes_out\t\
    changes\tchanges_by\n";

// The heading of a table of eras.
#[rattlefmt::skip]
const ERA_HEADING: &str = "era\tby\toutside_ip\toutside_port\tinside_ip\tinside_port\topened\tfirst\t\
    first_seconds\tfirst_nanoseconds\tlast\tlast_seconds\tlast_nanoseconds\trecords\t\
    sent\toctets\tend\trules\n";

// What a text line says after the number of each class of evidence, with the name of the next.
const BEFORE_DIFFERS: &str =
    ": octets that differ from those first sent (T_CLASH, F_CLASH)\ndiffers ";

const BEFORE_NOISE: &str = ": some hosts may read these otherwise\nnoise ";

const NOISE: &str = ": segments without payload that are dropped, mostly scans (T_COLD, T_FLAGS)";

/// Returns the line of a record.
pub fn record_line(
    alloc: Global,
    format: Format,
    shown_line: &ShownLine,
) -> Result<String, NoMemory> {
    let first = shown!("record", "", Value::Number(shown_line.number));
    let mut line = begun(alloc, format, "record", &first)?;
    put_record(&mut line, format, shown_line)?;
    end_line(&mut line, format)?;
    Ok(line)
}

/// Returns the line of an era.
pub fn era_line(alloc: Global, format: Format, view: &EraView<'_>) -> Result<String, NoMemory> {
    let first = shown!(
        "era",
        era_lead(view.second),
        Value::Number(u64::from(view.era)),
    );
    let mut line = begun(alloc, format, "era", &first)?;
    put_era(&mut line, format, view)?;
    end_line(&mut line, format)?;
    Ok(line)
}

/// Returns the summary of a run, in several lines as text.
pub fn summary_line(
    alloc: Global,
    format: Format,
    summary: &Summary<'_>,
) -> Result<String, NoMemory> {
    let first = shown!("records", "records ", Value::Number(summary.records));
    let mut line = begun(alloc, format, "summary", &first)?;
    put_summary(&mut line, format, summary)?;
    end_line(&mut line, format)?;
    Ok(line)
}

/// Returns the line of how many records were chosen.
pub fn chosen_line(alloc: Global, format: Format, records: u64) -> Result<String, NoMemory> {
    let first = shown!("records", "chosen ", Value::Number(records));
    let mut line = begun(alloc, format, "chosen", &first)?;
    end_line(&mut line, format)?;
    Ok(line)
}

/// Returns what follows the line of how many records were chosen as evidence: a line for each class
/// as text, one object as JSON.
pub fn evidence_lines(
    alloc: Global,
    format: Format,
    counts: &EvidenceCounts,
) -> Result<String, NoMemory> {
    let first = shown!(
        "contradictions",
        "contradictions ",
        Value::Number(counts.contradictions),
    );
    let mut lines = begun(alloc, format, "evidence", &first)?;
    put_fields(&mut lines, format, &evidence_parts(counts))?;
    if format == Format::Text {
        put_text(&mut lines, NOISE)?;
    }
    end_line(&mut lines, format)?;
    Ok(lines)
}

// Returns the counts of the second and the third class of evidence.
fn evidence_parts(counts: &EvidenceCounts) -> [Part<'static>; 2] {
    [
        shown!("differs", BEFORE_DIFFERS, Value::Number(counts.differs)),
        shown!("noise", BEFORE_NOISE, Value::Number(counts.noise)),
    ]
}

/// Returns the lines of notes, in their order.
pub fn notes_text(alloc: Global, format: Format, notes: &[Note]) -> Result<String, NoMemory> {
    let mut text = String::new(alloc);
    for note in notes {
        let line = note_line(alloc, format, *note)?;
        put_text(&mut text, line.as_str())?;
    }
    Ok(text)
}

// Returns the line of a note.
fn note_line(alloc: Global, format: Format, note: Note) -> Result<String, NoMemory> {
    let first = shown!("note", "note ", of_text(note_name(note)));
    let mut line = begun(alloc, format, "note", &first)?;
    put_note(&mut line, format, note)?;
    end_line(&mut line, format)?;
    Ok(line)
}

/// Returns the line of the status with which a run stopped, and the words for it, which are not
/// escaped in JSON.
pub fn stop_line(
    alloc: Global,
    format: Format,
    status: u8,
    reason: &str,
) -> Result<String, NoMemory> {
    let first = hidden!("status", Value::Number(u64::from(status)));
    let mut line = begun(alloc, format, "stop", &first)?;
    put_fields(&mut line, format, &[shown!("reason", "", of_text(reason))])?;
    end_line(&mut line, format)?;
    Ok(line)
}

/// Returns the heading of a table of records.
pub fn record_heading(alloc: Global) -> Result<String, NoMemory> {
    Ok(String::from_str(alloc, RECORD_HEADING)?)
}

/// Returns the heading of a table of eras.
pub fn era_heading(alloc: Global) -> Result<String, NoMemory> {
    Ok(String::from_str(alloc, ERA_HEADING)?)
}
