// The functions that the box's supervisor calls, as a library: crate skimp_c exports them to C. include/skimp.h says in plain words
// what they do, specs/Promises.antt what is proved of them.
#![tactic(auto)]

ghost use Rattle.std.specs.Prelude.{◌≡◌};
ghost use Rattle.call.specs.Reply.{wrote};
ghost use Rattle.call.specs.Compile.{compile_call};
ghost use Rattle.call.specs.ReadingBack.{read_back_call};
ghost use Rattle.call.specs.Run.{call, run_call};

// The longest texts: `most_object_bytes` and `most_sheet_bytes` of specs/Promises.antt.
pub const MOST_OBJECT_BYTES: usize = 37 + 18 * order::MOST_ORDERS as usize;

pub const MOST_SHEET_BYTES: usize = 32 * order::MOST_ORDERS as usize;

pub fn skimp_compile(source: &[u8], object: &mut [u8]) -> u64
    ensures { wrote result object.new ≡ compile_call source.now object.old }
{
    call_compile::compile(source, object)
}

pub fn skimp_read_back(object: &[u8], sheet: &mut [u8]) -> u64
    ensures { wrote result sheet.new ≡ read_back_call object.now sheet.old }
{
    call_read_back::read_back(object, sheet)
}

pub fn skimp_run(object: &[u8], state: &mut [u8], output: &mut [u8], budget: u32) -> u64
    ensures { call result state.new output.new
        ≡ run_call object.now state.old output.old budget }
{
    call_run::run(object, state, output, budget)
}
