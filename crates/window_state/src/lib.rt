#![tactic(auto)]
// The registers of a window, 32 lent bytes beside the state of the station that they drive: number 1, what is read, the interrupt, and the
// changes of a register. Where each register stands is said here for all code, in specs/Layout.antt for the definitions and in
// docs/STATE.md for readers.
ghost use Rattle.std.specs.Prelude.{◌≡◌, ◌<◌, cond, length};
ghost use Rattle.station_state.specs.Layout.{state_length};
ghost use Rattle.window_state.specs.Layout.{registers};
ghost use Rattle.window_state.specs.Registers.{registers_ok, valid, flags_of, register_of, up, reading, read_of, interrupt_of, address_of, stores, stored_of, raise};
ghost use Rattle.refusals.specs.Refusals.{code};

use kinds::{Kind, Want};
use refusals::Refusal;
use station_state::{NUMBER_WIDTH, VALUE_WIDTH};

// Places, each behind the register before it.
pub const PAGE: usize = 0;

pub const OBJECT: usize = PAGE + 1;

pub const COMMAND: usize = OBJECT + 1;

pub const REFUSAL: usize = COMMAND + 1;

pub const VALUE: usize = REFUSAL + 1;

pub const COMMIT: usize = VALUE + VALUE_WIDTH;

pub const FLAGS: usize = COMMIT + NUMBER_WIDTH;

pub const MASK: usize = FLAGS + 1;

// Eight bytes, four and two that are 0.
pub const BLANK: usize = MASK + 1;

const BLANK_FOUR: usize = BLANK + 8;

const BLANK_TWO: usize = BLANK_FOUR + 4;

pub const REGISTERS: usize = 32;

// Flags of register 16: done and aborted are kept there, open and waiting are the station's.
pub const OPEN_FLAG: u8 = 1;

pub const WAITING_FLAG: u8 = 2;

pub const DONE_FLAG: u8 = 4;

pub const ABORTED_FLAG: u8 = 8;

#[tactic(auto, unfolding(crate::specs::Registers::registers_ok))]
pub fn registers_ok(r: &[u8]) -> bool
    ensures { result ≡ registers_ok r.now }
{
    if r.len() != REGISTERS {
        return false;
    }
    (r[FLAGS] % 4 == 0)
        & (r[FLAGS] < 16)
        & (le::get_u64(r, BLANK) == 0)
        & (le::get_u32(r, BLANK_FOUR) == 0)
        & (le::get_u16(r, BLANK_TWO) == 0)
}

// False is number 1: the registers of a window, and the state of a validating station.
pub fn valid(r: &[u8], s: &[u8]) -> bool
    ensures { result ≡ valid r.now s.now }
{
    if !station_state::valid(s) {
        return false;
    }
    (station_state::kind(s) == Kind::Validating as u8) & registers_ok(r)
}

fn flag_if(up: bool, flag: u8) -> u8
    ensures { result ≡ cond up flag 0 }
{
    if up { flag } else { 0 }
}

#[tactic(auto, unfolding(crate::specs::Registers::flags_of, crate::specs::Registers::flag_if))]
pub fn flags(r: &[u8], s: &[u8]) -> u8
    requires { (length r.now ≡ registers) × (length s.now ≡ state_length) }
    ensures { result ≡ flags_of r.now s.now }
{
    flag_if(station_state::is_open(s), OPEN_FLAG)
        | flag_if(station_state::wait(s) != Want::Nothing as u8, WAITING_FLAG)
        | r[FLAGS]
}

#[tactic(auto, unfolding(crate::specs::Registers::register_of))]
fn register(r: &[u8], s: &[u8], k: usize) -> u8
    requires { (length r.now ≡ registers) × (length s.now ≡ state_length) × (k < registers) }
    ensures { result ≡ register_of r.now s.now k }
{
    if k == FLAGS {
        return flags(r, s);
    }
    r[k]
}

// Reads a register, and tells the byte. A refusal tells none: `byte` is the host's own place, which `wax_window_read` is lent.
pub fn read(offset: u32, r: &[u8], s: &[u8], byte: &mut u8) -> Result<(), Refusal>
    ensures { reading byte.new (code result) ≡ read_of offset r.now s.now byte.old }
{
    if !valid(r, s) {
        return Err(Refusal::Buffer);
    }
    let k = offset as usize;
    if k >= REGISTERS {
        return Err(Refusal::Register);
    }
    *byte = register(r, s, k);
    Ok(())
}

#[tactic(auto, unfolding(crate::specs::Registers::up))]
fn up(r: &[u8], s: &[u8]) -> bool
    requires { (length r.now ≡ registers) × (length s.now ≡ state_length) }
    ensures { result ≡ up r.now s.now }
{
    flags(r, s) & r[MASK] != 0
}

// Whether the interrupt is up: 1 is told for up and 0 for down. A refusal tells none, as in `read`.
pub fn interrupt(r: &[u8], s: &[u8], level: &mut u8) -> Result<(), Refusal>
    ensures { reading level.new (code result) ≡ interrupt_of r.now s.now level.old }
{
    if !valid(r, s) {
        return Err(Refusal::Buffer);
    }
    if up(r, s) {
        *level = 1;
        return Ok(());
    }
    *level = 0;
    Ok(())
}

// The address of page and object, or 256, which every operation turns back.
#[tactic(auto, unfolding(crate::specs::Registers::address_of))]
pub fn address(r: &[u8]) -> u32
    requires { length r.now ≡ registers }
    ensures { result ≡ address_of r.now }
{
    if (r[PAGE] < 32) & (r[OBJECT] < 8) {
        return u32::from(r[PAGE]) * 8 + u32::from(r[OBJECT]);
    }
    256
}

#[tactic(auto, unfolding(crate::specs::Registers::stores))]
fn stores(k: usize) -> bool
    ensures { result ≡ stores k }
{
    (k < COMMAND) | ((VALUE <= k) & (k < COMMIT)) | (k == MASK)
}

// A byte is written to a register that is not the command.
#[tactic(auto, unfolding(crate::specs::Registers::stored_of))]
pub fn store(r: &mut [u8], k: usize, byte: u8)
    requires { (length r.old ≡ registers) × (k < registers) }
    ensures { r.new ≡ stored_of k byte r.old }
{
    if k == FLAGS {
        let x = r[FLAGS] & !byte;
        le::put_u8(r, FLAGS, x);
        return;
    }
    if stores(k) {
        le::put_u8(r, k, byte);
    }
}

// A flag rises.
#[tactic(auto, unfolding(crate::specs::Registers::raise))]
pub fn raise(r: &mut [u8], flag: u8)
    requires { length r.old ≡ registers }
    ensures { r.new ≡ raise flag r.old }
{
    let x = r[FLAGS] | flag;
    le::put_u8(r, FLAGS, x);
}
