// A run: orders carried out, one after the other, within a budget.
#![tactic(auto)]

ghost use Rattle.std.specs.Prelude.{◌≡◌};
ghost use Rattle.order.specs.Memory.{orders_in};
ghost use Rattle.machine.specs.Machine.{machine, ran, run};

use machine::{Registers, STOPPED};
use machine_effect::end_with;
use machine_step::{fault_ahead, step};

// The steps of a run and what it leaves, beside the words and the output.
#[derive(Clone, Copy)]
pub struct Ran {
    pub steps: u32,
    pub registers: Registers,
}

// The ending is tested once before the orders and once after each.
pub fn run(orders: &[u64], words: &mut [u32], output: &mut [u8], r: Registers, budget: u32) -> Ran
    ensures { ran result.steps (machine result.registers words.new output.new)
        ≡ run (orders_in orders.now) budget (machine r words.old output.old) }
{
    if r.ending != 0 {
        return Ran {
            steps: 0,
            registers: r,
        };
    }
    let mut state = r;
    for steps in 0..budget {
        state = step(orders, words, output, state);
        let ending = state.ending;
        if ending != 0 {
            if ending == STOPPED {
                return Ran {
                    steps: steps + 1,
                    registers: state,
                };
            }
            return Ran {
                steps,
                registers: state,
            };
        }
    }
    Ran {
        steps: budget,
        registers: end_with(fault_ahead(orders, words, output, state), state),
    }
}
