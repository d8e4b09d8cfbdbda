// What declarations, labels and instructions do to the program so far, document 01 and 02, L1 and L5: names, labels, limits, and their
// place in the sheet.
#![tactic(auto, unfolding(base::specs::Choice::pick))]

ghost use Rattle.std.specs.Prelude.{◌≤◌, ◌≡◌};
ghost use Rattle.sheet.specs.Within.{most_levels};
ghost use Rattle.source.specs.Memory.{lexemes_from};
ghost use Rattle.labels.specs.Memory.{labels_at};
ghost use Rattle.front_end_forms.specs.declared.Failure.{Failure};
ghost use Rattle.front_end_forms.specs.Memory.{no_progress, table_of};
ghost use Rattle.front_end_forms.specs.Answers.{Begins, Declares, KeepsCounts, SetsLabels, Instructs, FewCounts};
ghost use Rattle.front_end_forms.specs.Internal.{too_deep, Opens, Places};

use fields::{all_known, good_jumps};
use fields_put::{Unfit, append};
use grammar_look::Tokens;
use groups::put_first;
use labels::set_labels;
use name_index::Names;
use names::declare;
use order::{MOST_ORDERS, MOST_TEMPORARIES, MOST_VARIABLES};
use sheet_field::{MOST_COMPARISONS, MOST_LEVELS};
use source::{MOST_LABELS, Refusal};
use translate_size::size_of;

// What of a program was read: nothing, `%BEGIN` or declarations behind it, or labels or instructions. The functions take any other
// stage too that a caller may count by; nothing that is read here is ever in one.
#[derive(Clone, Copy, Debug, PartialEq, Eq)]
pub enum Stage {
    Nothing,
    Declarations,
    Instructions,
    Other(u8),
}

// How far a program was read, and how many names, labels, fields, instructions, orders and open groups there are.
#[derive(Clone, Copy)]
pub struct Progress {
    pub stage: Stage,
    pub names: Names,
    pub labels: u32,
    pub fields: usize,
    pub instructions: u32,
    pub orders: u32,
    pub groups: u32,
}

// What comes of a statement that is not refused: the program goes on, or is a whole sheet.
#[derive(Clone, Copy)]
pub enum Step {
    Further(Progress),
    Given,
}

// Why nothing comes of a statement: the program is refused, with a place; or what is given is not fit: the statement is too long, or
// the arrays hold no program.
#[derive(Clone, Copy)]
pub enum Failure {
    Refused(Refusal, u32),
    Unfit,
}

impl From<Unfit> for Failure {
    ghost from_gives = { λ _ e. e ≡ Failure.Unfit };

    fn from(_e: Unfit) -> Failure {
        Failure::Unfit
    }
}

pub fn nothing_read() -> Progress
    ensures { result ≡ no_progress }
{
    Progress {
        stage: Stage::Nothing,
        names: Names {
            count: 0,
            letters: 0,
        },
        labels: 0,
        fields: 0,
        instructions: 0,
        orders: 0,
        groups: 0,
    }
}

// %BEGIN
pub fn begin(p: Progress, k: u32) -> Result<Progress, Failure>
    ensures { Begins p k result }
{
    if p.stage != Stage::Nothing {
        return Err(Failure::Refused(Refusal::Form, k));
    }
    Ok(Progress {
        stage: Stage::Declarations,
        ..p
    })
}

// %INTEGER
pub fn declaration(
    p: Progress,
    k: u32,
    cells: &[u8],
    tokens: &Tokens<'_>,
    letters: &mut [u8],
    index: &mut [u32],
) -> Result<Progress, Failure>
    ensures { Declares p k (lexemes_from 0 tokens.now.count cells.now tokens.now.kinds.now tokens.now.values.now) (table_of letters.old index.old) result (table_of letters.new index.new) }
{
    if p.stage != Stage::Declarations {
        return Err(Failure::Refused(Refusal::Form, k));
    }
    match declare(cells, tokens, letters, index, p.names) {
        Ok(names) => {
            if MOST_VARIABLES < names.count {
                return Err(Failure::Refused(Refusal::Limit, k));
            }
            Ok(Progress { names, ..p })
        }
        Err(names::Failure::Refused) => Err(Failure::Refused(Refusal::Name, k)),
        Err(names::Failure::Unfit) => Err(Failure::Unfit),
    }
}

// The labels of a statement.
pub fn label(
    p: Progress,
    k: u32,
    tokens: &Tokens<'_>,
    many: usize,
    labels: &mut [u32],
) -> Result<Progress, Failure>
    requires { FewCounts p }
    ensures kept { KeepsCounts p result }
    ensures set { SetsLabels p k (labels_at many tokens.now.kinds.now tokens.now.values.now) labels.old result labels.new }
{
    if p.stage == Stage::Nothing {
        return Err(Failure::Refused(Refusal::Form, k));
    }
    match set_labels(tokens, many, labels, p.labels, p.instructions + 1) {
        Ok(set) => {
            if MOST_LABELS < set {
                return Err(Failure::Refused(Refusal::Limit, k));
            }
            Ok(Progress {
                stage: Stage::Instructions,
                labels: set,
                ..p
            })
        }
        Err(labels::Failure::Refused) => Err(Failure::Refused(Refusal::Label, k)),
        Err(labels::Failure::Unfit) => Err(Failure::Unfit),
    }
}

// Whether an IF stands too deep, that is one that opens a group or has others in it, where so many groups are open.
fn too_deep(opens: bool, instructions: u32, count: u32) -> bool
    ensures { result ≡ too_deep opens instructions count }
{
    MOST_LEVELS <= count && (opens || 1 < instructions)
}

// Opens a group of statement k, where there is one to be opened.
fn open_group(groups: &mut [u64], count: u32, k: u32, began: u32, opens: bool) -> u32
    requires { count ≤ most_levels }
    ensures { Opens k began opens count groups.old result groups.new }
{
    if opens {
        put_first(groups, count, k, began);
        return count + 1;
    }
    count
}

// An instruction behind its labels: the limits, and its place behind the others. `opens`: it goes on behind a START.
fn place(
    p: Progress,
    k: u32,
    own: &[u64],
    opens: bool,
    groups: &mut [u64],
    fields: &mut [u64],
) -> Result<Progress, Failure>
    requires { FewCounts p }
    ensures { Places p k own.now opens groups.old fields.old result groups.new fields.new }
{
    let size = size_of(own);
    if MOST_TEMPORARIES < size.temporaries {
        return Err(Failure::Refused(Refusal::Limit, k));
    }
    if MOST_COMPARISONS < size.comparisons {
        return Err(Failure::Refused(Refusal::Limit, k));
    }
    if MOST_ORDERS - p.orders <= size.orders {
        return Err(Failure::Refused(Refusal::Limit, k));
    }
    if too_deep(opens, size.instructions, p.groups) {
        return Err(Failure::Refused(Refusal::Limit, k));
    }
    let n = append(own, k, fields, p.fields)?;
    let instructions = p.instructions + size.instructions;
    let count = open_group(groups, p.groups, k, instructions, opens);
    Ok(Progress {
        stage: Stage::Instructions,
        fields: n,
        instructions,
        orders: p.orders + size.orders,
        groups: count,
        ..p
    })
}

// An instruction and its labels.
pub fn instruction(
    p: Progress,
    k: u32,
    tokens: &Tokens<'_>,
    many: usize,
    own: &[u64],
    opens: bool,
    labels: &mut [u32],
    groups: &mut [u64],
    fields: &mut [u64],
) -> Result<Progress, Failure>
    requires { FewCounts p }
    ensures { Instructs p k (labels_at many tokens.now.kinds.now tokens.now.values.now) own.now opens labels.old groups.old fields.old result labels.new groups.new fields.new }
{
    if p.stage == Stage::Nothing {
        return Err(Failure::Refused(Refusal::Form, k));
    }
    if !all_known(own) {
        return Err(Failure::Refused(Refusal::Name, k));
    }
    if !good_jumps(own) {
        return Err(Failure::Refused(Refusal::Label, k));
    }
    let labelled = label(p, k, tokens, many, labels)?;
    place(labelled, k, own, opens, groups, fields)
}
