#![tactic(auto)]
// Document 02's register window for C: numbers and byte slices.
ghost use Rattle.std.specs.Prelude.{◌≡◌, length};
ghost use Rattle.host.specs.Host.{hosted};
ghost use Rattle.window_state.specs.Registers.{reading, read_of, interrupt_of};
ghost use Rattle.window.specs.Window.{write_of, step_of};
ghost use Rattle.window_host.specs.Host.{windowed, window_of};

use refusals::Refusal;

pub fn wax_window_read(offset: u32, registers: &[u8], state: &[u8], byte: &mut u8) -> u32
    ensures { reading byte.new result ≡ read_of offset registers.now state.now byte.old }
{
    refusals::code(window_state::read(offset, registers, state, byte))
}

pub fn wax_window_interrupt(registers: &[u8], state: &[u8], level: &mut u8) -> u32
    ensures { reading level.new result ≡ interrupt_of registers.now state.now level.old }
{
    refusals::code(window_state::interrupt(registers, state, level))
}

pub fn wax_window_write(
    offset: u32,
    byte: u8,
    registers: &mut [u8],
    state: &mut [u8],
    messages: &mut [u8],
    commit: &mut [u8],
    told: &mut [u64],
) -> u32
    ensures { windowed registers.new (hosted state.new messages.new commit.new told.new result) ≡ window_of registers.old state.old messages.old commit.old told.old (write_of offset byte registers.old state.old messages.old commit.old) }
{
    if told.len() < host::TOLD {
        return Refusal::Buffer as u32;
    }
    let x = window::write(offset, byte, registers, state, messages, commit);
    host::tell(x, told)
}

pub fn wax_window_step(
    message: &[u8],
    registers: &mut [u8],
    state: &mut [u8],
    messages: &mut [u8],
    commit: &mut [u8],
    told: &mut [u64],
) -> u32
    ensures { windowed registers.new (hosted state.new messages.new commit.new told.new result) ≡ window_of registers.old state.old messages.old commit.old told.old (step_of message.now registers.old state.old messages.old commit.old) }
{
    if told.len() < host::TOLD {
        return Refusal::Buffer as u32;
    }
    let x = window::step(message, registers, state, messages, commit);
    host::tell(x, told)
}
