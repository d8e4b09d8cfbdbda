// From source bytes to a sheet, or to the number and place of a refusal, document 01 ("What the box replies").
#![tactic(auto)]

ghost use Rattle.std.specs.Prelude.{◌≡◌, length};
ghost use Rattle.source.specs.Cells.{statements};
ghost use Rattle.source.specs.Program.{nothing_read};
ghost use Rattle.source.specs.Source.{program};
ghost use Rattle.front_end_forms.specs.Memory.{table_of};
ghost use Rattle.front_end.specs.Answers.{told, answered, answered_in};
ghost use Rattle.front_end.specs.Internal.{Rooms};

use cells::{next_statement, not_allowed};
use front_end_forms::{Failure, Step, nothing_read};
use front_end_statement::statement;
use sheet_field::{MOST_FIELDS, MOST_LEVELS};
use source::{LABEL_ROWS, MOST_BYTES, NAME_ROWS, Refusal};

// A sheet: V, the number of its instructions, and how many fields the array holds from its front on.
#[derive(Clone, Copy)]
pub struct Sheet {
    pub variables: u32,
    pub instructions: u32,
    pub fields: u32,
}

// The statements of a source, one after the other.
fn read_statements(
    source: &[u8],
    letters: &mut [u8],
    index: &mut [u32],
    labels: &mut [u32],
    groups: &mut [u64],
    fields: &mut [u64],
) -> Result<Sheet, Failure>
    requires { Rooms source.now (table_of letters.old index.old) labels.old groups.old fields.old }
    ensures { told result fields.new ≡ answered (program nothing_read 0 (statements source.now)) }
{
    let mut at = 0;
    let mut k: u32 = 0;
    let mut p = nothing_read();
    while at <= source.len() {
        match next_statement(source, at) {
            Ok(Some(next)) => {
                k += 1;
                match statement(next.statement, p, k, letters, index, labels, groups, fields)? {
                    Step::Further(q) => {
                        p = q;
                        at = next.behind;
                    }
                    Step::Given => return Ok(Sheet {
                        variables: p.names.count,
                        instructions: p.instructions,
                        fields: p.fields as u32,
                    }),
                }
            }
            Ok(None) => return Err(Failure::Refused(Refusal::Unended, k)),
            Err(e) => return Err(Failure::Refused(e, k + 1)),
        }
    }
    Err(Failure::Refused(Refusal::Unended, k))
}

// The sheet of a source, or the first refusal: "1 comes first, then 2. Then statements in order". Free is what the array holds
// behind the fields of a sheet, and all that it holds where there is none; its length stays. An array that has not MOST_FIELDS places
// is not fit.
pub fn read(source: &[u8], fields: &mut [u64]) -> Result<Sheet, Failure>
    ensures told { told result fields.new ≡ answered_in source.now fields.old }
    ensures kept { length fields.new ≡ length fields.old }
{
    if fields.len() != MOST_FIELDS {
        return Err(Failure::Unfit);
    }
    if MOST_BYTES < source.len() {
        return Err(Failure::Refused(Refusal::Length, 0));
    }
    if let Some(i) = not_allowed(source) {
        return Err(Failure::Refused(Refusal::Byte, i as u32));
    }
    let mut letters = [0u8; MOST_BYTES];
    let mut index = [0u32; NAME_ROWS];
    let mut labels = [0u32; LABEL_ROWS];
    let mut groups = [0u64; MOST_LEVELS as usize];
    read_statements(
        source,
        &mut letters,
        &mut index,
        &mut labels,
        &mut groups,
        fields,
    )
}
