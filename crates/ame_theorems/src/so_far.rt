//! The theorem on calls that haven't returned.

ghost use Rattle.std.specs.Prelude.{◌≡◌, []};
ghost use Rattle.ame_shell.specs.Shell.{shell_view, Opening, IsShell};
ghost use Rattle.ame_theorems.specs.SoFar.{HasShownARun};

use ame_device::Device;
use ame_io::Sink;
use ame_machine::Runner;
use ame_shell::Shell;

/// Says that a call that began its program has shown a strong run of the program between any two turns, also if it never
/// returns.
pub fn shells_tell_a_run_so_far<M: Runner, K: Sink, D: Device>(shell: &Shell<M, K, D>)
where
    M::Code: Drop,
    ensures { (opening : Opening M.Code) → IsShell M.meaning opening (shell_view shell.now) → opening.base ≡ []
        → HasShownARun (M.meaning.program opening.code) shell.now.engine.stop opening.ends shell.now.io.ends }
{
    shell.engine.stands();
}
