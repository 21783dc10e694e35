// A text read line by line.
ghost use Rattle.std.proofs.Math.Option.{Option};
ghost use Rattle.std.specs.Prelude.{◌≡◌};
ghost use Rattle.judging.specs.Draft.{Draft};
ghost use Rattle.judging.specs.Parse.{taken as taken_of, refused_at, accepted_at};
ghost use Rattle.judging.specs.Heard.{Heard};
ghost use Rattle.drafting.specs.Sheet.{Holds, Shows};
ghost use Rattle.reading.specs.Walks.{Walks};

use cases::Case;
use drafting::{Sheet, nothing, onward};
use scanning::{find, parse};
use texts::TextRead;

// One line more.
fn taken(sheet: Option<Sheet>, line: &[u8]) -> Option<Sheet>
    ensures { (o : Option Draft) → Holds sheet o → Holds result (taken_of o line.now) }
{
    onward(sheet, parse(line)?)
}

// The lines one after the other: the number behind the last one and the sheet, or the number of the first that is not taken.
fn walk(text: &[u8]) -> Result<(usize, Sheet), usize>
    ensures { Walks text.now result }
{
    let mut at: usize = 0;
    let mut line: usize = 1;
    let mut sheet: Option<Sheet> = None;
    // By position, since the parts that `split` gives do not tell an ended last line from an open one.
    while at < text.len() {
        let Some(end) = find(text, at, b'\n') else {
            return Err(line);
        };
        let Some(more) = taken(sheet, &text[at..end]) else {
            return Err(line);
        };
        sheet = Some(more);
        at = end + 1;
        line += 1;
    }
    match sheet {
        Some(s) => Ok((line, s)),
        None => Err(line),
    }
}

// The answer of a refusal.
fn refused(line: usize) -> TextRead
    ensures { result ≡ refused_at line }
{
    TextRead {
        code: 17,
        line,
        usual: false,
        case: nothing(),
    }
}

// The answer with a case.
fn accepted(line: usize, s: Sheet) -> TextRead
    ensures { (d : Draft) → Shows s d → result ≡ accepted_at line d }
{
    let Sheet {
        procs,
        locs,
        dropped,
        counts,
        masks,
        presets,
        memory,
        code,
        ..
    } = s;
    TextRead {
        code: 0,
        line,
        usual: dropped != 0,
        case: Case {
            procs,
            locs,
            counts,
            masks,
            presets,
            memory,
            code,
        },
    }
}

// What is heard of a text before 19 is asked. A refusal returns by itself, as one of two arms it would be copied once more.
pub fn hear(text: &[u8]) -> TextRead
    ensures { Heard text.now result }
{
    let (line, s) = match walk(text) {
        Ok(walked) => walked,
        Err(line) => return refused(line),
    };
    let open = s.need > s.next;
    if open {
        return refused(line);
    }
    accepted(line, s)
}
