// Turns.
ghost use Rattle.std.specs.Prelude.{◌≡◌};
ghost use Rattle.turns_host.specs.Host.{turned, taken_of};

use turns_host::Line;

// A turn over lent lines: 0, and line says to whom; 1, 19 or 20, and nothing lent changes.
#[unsafe(no_mangle)]
pub extern "C" fn wax_turn_next(lines: &mut [Line], line: &mut usize) -> u32
    ensures { turned lines.new line.new result ≡ taken_of lines.old line.old }
{
    turns_host::wax_turn_next(lines, line)
}
