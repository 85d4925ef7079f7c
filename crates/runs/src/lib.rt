// Runs of the register unit with a budget of cycles (paper 01, 'The register unit'; demand 2), the status and interrupt bytes (paper 02, Req 09), and runs that wait
// and are continued (Req 10).
#![tactic(auto)]

ghost use Rattle.std.specs.Prelude.{◌≡◌, ◌*◌, ◌%◌, ◌^◌, ◌≤◌, length, take, MatchResult, ◌++◌, drop};
ghost use Rattle.bits.specs.Refusal.{number_of, number_in};
ghost use Rattle.unit.specs.Bank.{with_enable, leaving};
ghost use Rattle.runs.specs.StatusByte.{with_bit, status_of, acknowledge_of, interrupt_of};
ghost use Rattle.runs.specs.Run.{end_number, operations_of, operations_refusal, run_refusal, reaching, turn_of, end_of, status_bit, marked_by, ended_of, carried_out, refused_of, run_of, same, is_remainder, continue_of, drop_of};

use bits::Refusal;

// How a run ended. Its numbers are part of the interface.
#[derive(Clone, Copy, PartialEq, Eq)]
pub enum End {
    Refused = 0,
    Done = 1,
    Spent = 2,
}

impl From<End> for u8 {
    ghost from_gives = { λ end number. number ≡ end_number end };

    fn from(end: End) -> u8 {
        end as u8
    }
}

// How far a list was carried out: the operations run and their cycles.
#[derive(Clone, Copy)]
pub struct Turn {
    pub ran: u32,
    pub cycles: u32,
}

// What a run answers: how it ended (0 refused, 1 done, 2 spent), the operations run and the cycles used; zeros beside a refusal.
#[repr(C)]
#[derive(Clone, Copy)]
pub struct Outcome {
    pub refusal: u8,
    pub end: u8,
    pub ran: u32,
    pub cycles: u32,
}

impl From<Refusal> for Outcome {
    ghost from_gives = { λ refusal answer. answer ≡ record { refusal = number_of refusal; «end» = 0; ran = 0; cycles = 0 } };

    fn from(refusal: Refusal) -> Outcome {
        refused(u8::from(refusal))
    }
}

// The answer of a refusal by its number.
fn refused(refusal: u8) -> Outcome
    ensures { result ≡ record { refusal = refusal; «end» = 0; ran = 0; cycles = 0 } }
{
    Outcome {
        refusal,
        end: u8::from(End::Refused),
        ran: 0,
        cycles: 0,
    }
}

// The bytes of whole operations, at most 1,024.
#[derive(Clone, Copy)]
pub struct Operations<'a> {
    pub bytes: &'a [u8],
    pub ghost whole: { length bytes.now % 4 ≡ 0 },
    pub ghost within: { length bytes.now ≤ 4096 },
}

// The lowest refusal of any operation of the list, or that of another run.
fn check_operations(other: bool, ops: &[u8]) -> Result<(), Refusal>
    ensures { number_in result ≡ operations_refusal other (operations_of ops.now) }
{
    let mut registers = true;
    for operation in ops.chunks_exact(4) {
        if !unit::is_kind(operation[0], operation[1]) {
            return Err(Refusal::Kind);
        }
        registers &= unit::are_registers(operation[0], operation[1], operation[2], operation[3]);
    }
    if !registers {
        return Err(Refusal::Register);
    }
    if other {
        return Err(Refusal::Waiting);
    }
    Ok(())
}

// The operations of a run's list; or its lowest refusal, or that of another run (`other`).
pub fn run_refusal<'a>(other: bool, ops: &'a [u8]) -> Result<Operations<'a>, Refusal>
    ensures { MatchResult result
        (λ operations. (operations.bytes.now ≡ ops.now) × (run_refusal other ops.now ≡ 0))
        (λ refusal. number_of refusal ≡ run_refusal other ops.now) }
{
    if ops.len() % 4 != 0 {
        return Err(Refusal::Length);
    }
    if 4096 < ops.len() {
        return Err(Refusal::Length);
    }
    check_operations(other, ops)?;
    Ok(Operations { bytes: ops })
}

// The operations are carried out while the next one's cycles fit in what is left of the budget.
fn go_on(registers: &mut unit::Registers, ops: Operations, budget: u32) -> Turn
    ensures { reaching result registers.new ≡ turn_of registers.old (operations_of ops.entry.bytes.now) budget }
{
    let mut networks = unit::Networks::new();
    let mut left = budget;
    let mut ran = 0;
    for operation in ops.bytes.chunks_exact(4) {
        let cycles = unit::cycles_of(operation[0]);
        if left < cycles {
            break;
        }
        unit::step(registers, &mut networks, operation);
        left -= cycles;
        ran += 1;
    }
    Turn {
        ran,
        cycles: budget - left,
    }
}

// internal: not more operations run than there are. How their run ended.
fn end_of(ops: Operations, ran: u32) -> End
    requires { 4 * ran ≤ length ops.bytes.now }
    ensures { end_number result ≡ end_of ran (operations_of ops.entry.bytes.now) }
{
    if 4 * (ran as usize) < ops.bytes.len() {
        return End::Spent;
    }
    End::Done
}

// The bit of the status byte that a run's end sets, as a byte. (By the end's number: `status_after` promises it of every number.)
fn status_mark(end: u8) -> u8
    ensures { result ≡ 2 ^ status_bit «end» }
{
    match end {
        1 => 1,
        2 => 2,
        _ => 4,
    }
}

// The status byte with the bit of a run's end set.
pub fn status_after(status: u8, end: u8) -> u8
    ensures { result ≡ with_bit status (status_bit «end») }
{
    let mark = status_mark(end);
    status | mark
}

// The end of a run noted in the status byte.
pub fn note(registers: &mut unit::Registers, end: End)
    ensures { registers.new ≡ marked_by registers.old (end_number «end») }
{
    registers.status = status_after(registers.status, u8::from(end));
}

// internal: not more bytes than a bank's list has. They stand at its start then. (By a loop: `copy_from_slice` calls memmove, and of the C library the
// archive may need memcpy and memset alone: the conformance test without_a_c_library.)
fn remember(list: &mut [u8; 4096], rest: &[u8])
    requires { (length list.old ≡ 4096) × (length rest.now ≤ 4096) }
    ensures { list.new ≡ rest.now ++ drop (length rest.now) list.old }
{
    for (at, byte) in rest.iter().enumerate() {
        list[at] = *byte;
    }
}

// internal: `ran` of the operations have been run on the bank. Their run ends: the bank waits for the others, or no longer, and its status has the end's bit.
fn finish(bank: &mut unit::Bank, ops: Operations, ran: u32) -> End
    requires { 4 * ran ≤ length ops.bytes.now }
    ensures end { end_number result ≡ end_of ran (operations_of ops.entry.bytes.now) }
    ensures bank { bank.new ≡ ended_of bank.old ops.entry.bytes.now ran }
{
    let end = end_of(ops, ran);
    note(&mut bank.registers, end);
    if end == End::Done {
        bank.registers.waiting = 0;
        return end;
    }
    let rest = &ops.bytes[unit::bytes_of(ran)..];
    remember(&mut bank.list, rest);
    bank.registers.waiting = 1;
    bank.registers.left = rest.len() as u32;
    end
}

// A run of the operations on the bank, or a refusal by its number, which sets a status bit alone. (Any number: its promise stands.)
pub fn perform(bank: &mut unit::Bank, checked: Result<Operations, u8>, budget: u32) -> Outcome
    ensures { MatchResult checked.entry
        (λ operations. leaving result bank.new ≡ carried_out bank.old operations.bytes.now budget)
        (λ refusal. leaving result bank.new ≡ refused_of bank.old refusal) }
{
    match checked {
        Ok(ops) => {
            let turn = go_on(&mut bank.registers, ops, budget);
            let end = finish(bank, ops, turn.ran);
            Outcome {
                refusal: bits::CARRIED_OUT,
                end: u8::from(end),
                ran: turn.ran,
                cycles: turn.cycles,
            }
        }
        Err(refusal) => {
            note(&mut bank.registers, End::Refused);
            refused(refusal)
        }
    }
}

// A run of the operations on the bank within a budget of cycles: done or spent, the operations run and their cycles; or the lowest refusal of the whole list, and
// every word as it was. Its end sets a status bit, refused or not. Spent, the bank waits for the operations left.
pub fn run(bank: &mut unit::Bank, ops: &[u8], budget: u32) -> Outcome
    ensures { leaving result bank.new ≡ run_of bank.old ops.now budget }
{
    let other = bank.registers.waiting != 0;
    let checked = run_refusal(other, ops);
    perform(bank, checked.map_err(u8::from), budget)
}

// internal: not more bytes than the bank's list has. Whether its first bytes are these. No branch depends on a byte (std's `starts_with` and
// `==` end at the first that differs).
fn starts_with(bank: &unit::Bank, ops: &[u8]) -> bool
    requires { length ops.now ≤ 4096 }
    ensures { result ≡ same (take (length ops.now) bank.now.list) ops.now }
{
    let mut same = true;
    for (own, byte) in bank.list.iter().zip(ops) {
        same &= *own == *byte;
    }
    same
}

// Whether the operations are the remainder that the bank remembers.
pub fn is_remainder(bank: &unit::Bank, ops: &[u8]) -> bool
    ensures { result ≡ is_remainder bank.now.registers.left bank.now.list ops.now }
{
    let left = bank.registers.left;
    if ops.len() != left as usize {
        return false;
    }
    if 4096 < left {
        return false;
    }
    starts_with(bank, ops)
}

// A run continued: as a run, where the bank waits and the operations are its remainder.
pub fn continue_run(bank: &mut unit::Bank, ops: &[u8], budget: u32) -> Outcome
    ensures { leaving result bank.new ≡ continue_of bank.old ops.now budget }
{
    let waits = bank.registers.waiting != 0;
    let remainder = is_remainder(bank, ops);
    let checked = run_refusal(!(waits & remainder), ops);
    perform(bank, checked.map_err(u8::from), budget)
}

// The bank no longer waits.
pub fn drop(registers: &mut unit::Registers)
    ensures { registers.new ≡ drop_of registers.old }
{
    registers.waiting = 0;
}

// The status byte as it reads: bits 0 to 2.
pub fn status(registers: &unit::Registers) -> u8
    ensures { result ≡ status_of registers.now }
{
    registers.status % 8
}

// A byte into the enable byte.
pub fn enable(registers: &mut unit::Registers, byte: u8)
    ensures { registers.new ≡ with_enable registers.old byte }
{
    registers.enable = byte;
}

// The status bits cleared where the byte has ones.
pub fn acknowledge(registers: &mut unit::Registers, byte: u8)
    ensures { registers.new ≡ acknowledge_of registers.old byte }
{
    registers.status &= !byte;
}

// The interrupt line: 1 if some bit is one both in the status as it reads and in the enable byte, else 0.
pub fn interrupt(registers: &unit::Registers) -> u8
    ensures { result ≡ interrupt_of registers.now }
{
    let enabled = registers.enable;
    let both = status(registers) & enabled;
    u8::from(both != 0)
}
