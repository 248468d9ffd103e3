//! Commands that are drawn from a generator.

ghost use Rattle.std.specs.Prelude.{◌≡◌, ◌+◌, ◌<◌, ◌≤◌, ◌%◌};
ghost use Rattle.mako_gen.specs.Workloads.{call_drawn, left, rare_call, rare_draws, variable, word};
ghost use Rattle.rand_pcg.specs.Lcg.{advance};
ghost use Rattle.rand_pcg.specs.Pcg.{multiplier_64};

use mako_model::Call;
use rand_core::utils::NextWord;
use rand_pcg::Lcg64Xsh32;

/// How many variables are drawn from.
const VARIABLES: u32 = 6;

/// The next word of the generator, modulo a number.
#[tactic(auto, unfolding(rand_pcg::specs::Lcg::state_after))]
fn below(generator: &mut Lcg64Xsh32, limit: u32) -> u32
    requires { 0 < limit }
    ensures drawn { result ≡ word generator.old 0 % limit }
    ensures left { generator.new ≡ advance 64 multiplier_64 1 generator.old }
    ensures small { result < limit }
{
    generator.next_word() % limit
}

/// The root of one of the six variables, which follow the board.
fn variable(generator: &mut Lcg64Xsh32) -> u8
    ensures drawn { result ≡ variable (word generator.old 0) }
    ensures left { generator.new ≡ advance 64 multiplier_64 1 generator.old }
{
    below(generator, VARIABLES) as u8 + 1
}

/// A number of fields, or the index of one.
fn small(generator: &mut Lcg64Xsh32, limit: u8) -> u8
    requires { 0 < limit }
    ensures drawn { result ≡ word generator.old 0 % limit }
    ensures left { generator.new ≡ advance 64 multiplier_64 1 generator.old }
{
    below(generator, u32::from(limit)) as u8
}

/// The next command.
pub fn command(generator: &mut Lcg64Xsh32) -> Call
    ensures drawn { result ≡ call_drawn generator.old }
    ensures left { generator.new ≡ left generator.old }
{
    match below(generator, 16) {
        0..=3 => {
            let root = variable(generator);
            let fields = small(generator, 6);
            Call::New { root, fields }
        }
        4 | 5 => {
            let to = variable(generator);
            let from = variable(generator);
            let field = small(generator, 3);
            Call::Get { to, from, field }
        }
        6..=8 => {
            let to = variable(generator);
            let field = small(generator, 3);
            let from = variable(generator);
            Call::Put { to, field, from }
        }
        9 => {
            let to = variable(generator);
            let from = variable(generator);
            Call::CopyRoot { to, from }
        }
        10 => Call::DropRoot {
            root: variable(generator),
        },
        11 => {
            let field = small(generator, 8);
            let from = variable(generator);
            Call::Put { to: 0, field, from }
        }
        12 => {
            let to = variable(generator);
            let field = small(generator, 8);
            Call::Get { to, from: 0, field }
        }
        13 => {
            let root = variable(generator);
            let value = below(generator, 1000);
            Call::Num { root, value }
        }
        14 => Call::Show {
            root: variable(generator),
        },
        _ => rare_command(generator),
    }
}

/// One time in sixteen it waits for a cycle, else it shows a variable.
fn rare_command(generator: &mut Lcg64Xsh32) -> Call
    ensures drawn { result ≡ rare_call (word generator.old 0) (word generator.old 1) }
    ensures left { generator.new ≡ advance 64 multiplier_64 (rare_draws (word generator.old 0)) generator.old }
{
    if below(generator, 16) == 0 {
        Call::Collect
    } else {
        Call::Show {
            root: variable(generator),
        }
    }
}
