// The functions that the box's supervisor calls, for C: each is that of crate skimp, with its clauses. include/skimp.h says in plain
// words what they do, specs/Promises.antt of skimp what is proved of them.
#![tactic(auto)]

ghost use Rattle.std.specs.Prelude.{◌≡◌};
ghost use Rattle.call.specs.Reply.{wrote};
ghost use Rattle.call.specs.Compile.{compile_call};
ghost use Rattle.call.specs.ReadingBack.{read_back_call};
ghost use Rattle.call.specs.Run.{call, run_call};

#[unsafe(no_mangle)]
pub extern "C" fn skimp_compile(source: &[u8], object: &mut [u8]) -> u64
    ensures { wrote result object.new ≡ compile_call source.now object.old }
{
    skimp::skimp_compile(source, object)
}

#[unsafe(no_mangle)]
pub extern "C" fn skimp_read_back(object: &[u8], sheet: &mut [u8]) -> u64
    ensures { wrote result sheet.new ≡ read_back_call object.now sheet.old }
{
    skimp::skimp_read_back(object, sheet)
}

#[unsafe(no_mangle)]
pub extern "C" fn skimp_run(object: &[u8], state: &mut [u8], output: &mut [u8], budget: u32) -> u64
    ensures { call result state.new output.new
        ≡ run_call object.now state.old output.old budget }
{
    skimp::skimp_run(object, state, output, budget)
}
