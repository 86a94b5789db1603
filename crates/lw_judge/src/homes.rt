//! Whether the pool's buffers are home.
ghost use Rattle.std.specs.Prelude.{◌≡◌};
ghost use Rattle.lw_model.specs.Verdict.{least_failing, buffers_home};
ghost use Rattle.lw_model.specs.Lines.{home_line};

use lw_judge_threads::failing;
use lw_model::Record;

/// The `home` line, where it hasn't the pool's counts.
pub fn buffers_home(of: &Record, line: u64) -> Option<u64>
    requires { line ≡ home_line of.now }
    ensures { result ≡ least_failing (buffers_home of.now) }
{
    let small = of.home.small == of.script.small;
    failing(small && of.home.large == of.script.large, line)
}
