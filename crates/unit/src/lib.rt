// The register unit (paper 01, 'The register unit'; demand 2): its registers, one operation on them, reading and writing a general register.
#![tactic(auto)]

ghost use Rattle.std.specs.Prelude.{◌⊎◌, MatchResult, ◌≡◌, ◌+◌, ◌-◌, ◌*◌, ◌/◌, ◌%◌, ◌^◌, ◌<◌, true, false, cond, leb, length, replicate};
ghost use Rattle.bits.specs.Refusal.{number_of, number_in};
ghost use Rattle.network.specs.Stage.{butterfly_of, inverse_of};
ghost use Rattle.network.specs.Word.{prepared_of};
ghost use Rattle.unit.specs.Bank.{register, with_register, with_b, with_ib, stages_of, packed_of};
ghost use Rattle.unit.specs.Kinds.{kind_number};
ghost use Rattle.unit.specs.Lent.{loaded_at};
ghost use Rattle.unit.specs.Calls.{operate_of, number_refusal, read_of, write_of};
ghost use Rattle.unit.specs.Operation.{cycles_of, is_kind, used_of, are_registers, operation_refusal, load_of, operation_at, step_by};

use bits::Refusal;

// The registers of the unit: sixteen general ones, and the controls of both networks, two stages a register, the earlier one in the low half; the status byte,
// and the byte that says which of its bits raise the interrupt line; of a run that waits, that it does (not zero), and how many bytes of its list are left.
#[repr(C)]
#[derive(Clone, Copy)]
pub struct Registers {
    pub general: [u64; 16],
    pub b: [u64; 3],
    pub ib: [u64; 3],
    pub status: u8,
    pub enable: u8,
    pub waiting: u8,
    pub left: u32,
}

// What the host lends: the registers, and the bytes of the operations left at the start of a list.
#[repr(C)]
#[derive(Drop)]
pub struct Bank {
    pub registers: Registers,
    pub list: [u8; 4096],
}

// What one operation answers: 0 and its cycles, or the number of the refusal and a zero.
#[repr(C)]
#[derive(Clone, Copy)]
pub struct Cycles {
    pub refusal: u8,
    pub cycles: u32,
}

impl From<Refusal> for Cycles {
    ghost from_gives = { λ refusal answer. answer ≡ record { refusal = number_of refusal; cycles = 0 } };

    fn from(refusal: Refusal) -> Cycles {
        Cycles {
            refusal: u8::from(refusal),
            cycles: 0,
        }
    }
}

// What reading a general register answers: 0 and the value, or the number of the refusal and a zero.
#[repr(C)]
#[derive(Clone, Copy)]
pub struct Register {
    pub refusal: u8,
    pub value: u64,
}

impl From<Refusal> for Register {
    ghost from_gives = { λ refusal answer. answer ≡ record { refusal = number_of refusal; value = 0 } };

    fn from(refusal: Refusal) -> Register {
        Register {
            refusal: u8::from(refusal),
            value: 0,
        }
    }
}

// The kinds of an operation, paper 01's table. (Lists are tested by the numbers: `is_kind` and `are_registers` have no branch.)
#[derive(Clone, Copy)]
enum Kind {
    Butterfly = 1,
    Inverse = 2,
    InverseOfMasked = 3,
    ButterflyMasked = 4,
    Load = 5,
    Gather = 6,
    Scatter = 7,
    DecodeInverse = 8,
    Decode = 9,
    Group = 10,
}

impl TryFrom<u8> for Kind {
    type Error = Refusal;

    ghost try_from_gives = { λ byte kind. MatchResult kind (λ k. kind_number k ≡ byte) (λ refusal. (byte ≡ 0) ⊎ (10 < byte)) };

    fn try_from(byte: u8) -> Result<Kind, Refusal> {
        match byte {
            1 => Ok(Kind::Butterfly),
            2 => Ok(Kind::Inverse),
            3 => Ok(Kind::InverseOfMasked),
            4 => Ok(Kind::ButterflyMasked),
            5 => Ok(Kind::Load),
            6 => Ok(Kind::Gather),
            7 => Ok(Kind::Scatter),
            8 => Ok(Kind::DecodeInverse),
            9 => Ok(Kind::Decode),
            10 => Ok(Kind::Group),
            _ => Err(Refusal::Kind),
        }
    }
}

impl Kind {
    // The mask of kinds 3 and 4, which is y; kinds 1 and 2 mask nothing.
    fn mask(self, y: u64) -> u64
        ensures { result ≡ cond (leb (kind_number self) 2) (2 ^ 64 - 1) y }
    {
        match self {
            Kind::Butterfly | Kind::Inverse => u64::MAX,
            _ => y,
        }
    }
}

// The table's figures, by kind: a hexadecimal digit each, kind 0 at the right. (An array would be built anew at each look.)
const CYCLES: u64 = 0x32233111110;

// The stage in the low half of a control register.
fn low(register: u64) -> u32
    ensures { result ≡ register % 2 ^ 32 }
{
    (register % 0x100000000) as u32
}

// The stage in its high half.
fn high(register: u64) -> u32
    ensures { result ≡ register / 2 ^ 32 }
{
    (register >> 32) as u32
}

// The register that holds two stages.
fn joined(low: u32, high: u32) -> u64
    ensures { result ≡ high * 2 ^ 32 + low }
{
    high as u64 * 0x100000000 + low as u64
}

// The stages that a triple of registers holds. (Written out, as in `packed`: by `array::from_fn` each would ask which half its index means.)
fn stages_of(registers: [u64; 3]) -> [u32; 6]
    ensures { result ≡ stages_of registers }
{
    let [first, second, third] = registers;
    [
        low(first),
        high(first),
        low(second),
        high(second),
        low(third),
        high(third),
    ]
}

// The triple of registers that holds the stages.
fn packed(stages: [u32; 6]) -> [u64; 3]
    ensures { result ≡ packed_of stages }
{
    [
        joined(stages[0], stages[1]),
        joined(stages[2], stages[3]),
        joined(stages[4], stages[5]),
    ]
}

// What is kept of a network: the words of its swaps, and the control registers that they are for.
#[derive(Clone, Copy)]
struct Network {
    swaps: [u64; 6],
    registers: [u64; 3],
}

impl Network {
    // The inverse (rising) or the butterfly at control registers.
    fn at(rising: bool, registers: [u64; 3]) -> Network
        ensures swaps { result.swaps ≡ prepared_of rising 6 (stages_of registers) }
        ensures registers { result.registers ≡ registers }
    {
        let mut stages = stages_of(registers);
        if rising {
            stages.reverse();
        }
        let swaps = network::prepare(stages);
        Network { swaps, registers }
    }

    // internal: the inverse (rising) or the butterfly. It is made for these control registers, unless it is so already.
    fn keep(&mut self, rising: bool, registers: [u64; 3])
        requires { self.old.swaps ≡ prepared_of rising 6 (stages_of self.old.registers) }
        ensures swaps { self.new.swaps ≡ prepared_of rising 6 (stages_of registers) }
        ensures registers { self.new.registers ≡ registers }
    {
        if self.registers != registers {
            *self = Network::at(rising, registers);
        }
    }
}

// Both networks, as a run keeps them. (One type, `Network<const RISING: bool>`, is refused: no ghost field stands beside a
// `bool` const parameter; a trait for two methods of two lines would be no plainer.)
#[derive(Clone, Copy)]
pub struct Networks {
    butterfly: Network,
    inverse: Network,
    ghost falls: { butterfly.swaps ≡ prepared_of false 6 (stages_of butterfly.registers) },
    ghost rises: { inverse.swaps ≡ prepared_of true 6 (stages_of inverse.registers) },
}

impl Networks {
    // Those of the butterfly's and of the inverse's control registers.
    pub fn at(b: [u64; 3], ib: [u64; 3]) -> Networks
        ensures { (result.butterfly.registers ≡ b) × (result.inverse.registers ≡ ib) }
    {
        Networks {
            butterfly: Network::at(false, b),
            inverse: Network::at(true, ib),
        }
    }

    // Those of control registers that are zero.
    pub fn new() -> Networks
        ensures { (result.butterfly.registers ≡ replicate 3 0) × (result.inverse.registers ≡ replicate 3 0) }
    {
        Networks {
            butterfly: Network::at(false, [0; 3]),
            inverse: Network::at(true, [0; 3]),
        }
    }

    // A word through the butterfly at control registers.
    fn butterfly(&mut self, registers: [u64; 3], word: u64) -> u64
        ensures { result ≡ butterfly_of 6 (stages_of registers) word }
    {
        self.butterfly.keep(false, registers);
        network::butterfly_prepared(self.butterfly.swaps, word)
    }

    // A word through the inverse at control registers.
    fn inverse(&mut self, registers: [u64; 3], word: u64) -> u64
        ensures { result ≡ inverse_of 6 (stages_of registers) word }
    {
        self.inverse.keep(true, registers);
        network::inverse_prepared(self.inverse.swaps, word)
    }
}

// The cycles of a kind.
pub fn cycles_of(kind: u8) -> u32
    ensures { result ≡ cycles_of kind }
{
    if 10 < kind {
        return 0;
    }
    ((CYCLES >> (4 * (kind as u64))) % 16) as u32
}

// The bytes of so many operations, four each.
pub fn bytes_of(operations: u32) -> usize
    ensures { result ≡ 4 * operations }
{
    4 * (operations as usize)
}

// Whether the kind is one of the table, and in kind 5 r1 one of its four.
pub fn is_kind(kind: u8, r1: u8) -> bool
    ensures { result ≡ is_kind kind r1 }
{
    (1 <= kind) & (kind <= 10) & ((kind != 5) | (1 <= r1) & (r1 <= 4))
}

// Whether every register number in use is one of a general register. No branch depends on the bytes.
pub fn are_registers(kind: u8, r1: u8, r2: u8, r3: u8) -> bool
    ensures { result ≡ are_registers (used_of kind r1 r2 r3) }
{
    let first = (kind == 5) | (kind == 8) | (kind == 9) | (r1 <= 15);
    let second = (kind == 8) | (kind == 9) | (r2 <= 15);
    let third = (kind <= 2) | (kind == 5) & (r1 % 2 == 0) | (r3 <= 15);
    !is_kind(kind, r1) | third & second & first
}

// The lowest refusal of an operation, where another run waits or not. (Its bytes go one by one, as `tb_operate` has them from C, in registers of the processor.)
fn check_operation(other: bool, kind: u8, r1: u8, r2: u8, r3: u8) -> Result<(), Refusal>
    ensures { number_in result ≡ operation_refusal other kind r1 r2 r3 }
{
    if !is_kind(kind, r1) {
        return Err(Refusal::Kind);
    }
    if !are_registers(kind, r1, r2, r3) {
        return Err(Refusal::Register);
    }
    if other {
        return Err(Refusal::Waiting);
    }
    Ok(())
}

// The refusal of a general register's number.
fn check_number(number: u8) -> Result<(), Refusal>
    ensures { number_in result ≡ number_refusal number }
{
    if 15 < number {
        return Err(Refusal::Register);
    }
    Ok(())
}

// internal: three control registers, and 1 or 0. x and y into the first two, or x into the third: two stores, and no branch depends on which.
fn load_into(registers: &mut [u64; 3], odd: u64, x: u64, y: u64)
    requires { (length registers.old ≡ 3) × (odd < 2) }
    ensures { registers.new ≡ loaded_at (2 - odd) registers.old x y }
{
    let last = x ^ ((x ^ y) & (odd * 0xFFFFFFFFFFFFFFFF));
    registers[(2 - 2 * odd) as usize] = x;
    registers[(2 - odd) as usize] = last;
}

impl Registers {
    // General register `number`, 0 where there is none.
    fn general_at(&self, number: u8) -> u64
        ensures { result ≡ register self.now number }
    {
        self.general.get(number as usize).copied().unwrap_or(0)
    }

    // A value into general register `number`. (By `get_mut` the proof does not close: the array is lost where there is none.)
    fn put(&mut self, number: u8, value: u64)
        ensures { self.new ≡ with_register self.old number value }
    {
        if number <= 15 {
            self.general[number as usize] = value;
        }
    }

    // Kind 5: words x and y, of registers r2 and r3, into control registers.
    fn load(&mut self, r1: u8, x: u64, y: u64)
        ensures { self.new ≡ load_of self.old r1 x y }
    {
        let odd = (r1 % 2) as u64;
        match r1 {
            1 | 2 => load_into(&mut self.b, odd, x, y),
            3 | 4 => load_into(&mut self.ib, odd, x, y),
            _ => {}
        }
    }
}

// internal: an operation, four bytes. The table of paper 01: the registers after it, if it is accepted. Both operands are read before the result is written.
pub fn step(registers: &mut Registers, networks: &mut Networks, operation: &[u8])
    requires { length operation.now ≡ 4 }
    ensures { registers.new ≡ step_by registers.old (operation_at operation.now 0) }
{
    let Ok(kind) = Kind::try_from(operation[0]) else {
        return;
    };
    let r1 = operation[1];
    let y = registers.general_at(operation[3]);
    let x = registers.general_at(operation[2]);
    match kind {
        Kind::Butterfly | Kind::ButterflyMasked => {
            registers.put(r1, networks.butterfly(registers.b, x) & kind.mask(y));
        }
        Kind::Inverse | Kind::InverseOfMasked => {
            registers.put(r1, networks.inverse(registers.ib, x & kind.mask(y)));
        }
        Kind::Load => registers.load(r1, x, y),
        Kind::Gather => registers.put(r1, gather::gather_64(y, x)),
        Kind::Scatter => registers.put(r1, gather::scatter_64(y, x)),
        Kind::DecodeInverse => registers.ib = packed(network::decode_inverse_64(y)),
        Kind::Decode => registers.b = packed(network::decode_64(y)),
        Kind::Group => registers.put(r1, gather::group_64(y, x)),
    }
}

// One operation on the registers: its cycles, or the lowest refusal and the registers as they were.
pub fn operate(registers: &mut Registers, kind: u8, r1: u8, r2: u8, r3: u8) -> Cycles
    ensures answer { result ≡ (operate_of registers.old kind r1 r2 r3).answer }
    ensures registers { registers.new ≡ (operate_of registers.old kind r1 r2 r3).registers }
{
    match check_operation(registers.waiting != 0, kind, r1, r2, r3) {
        Ok(()) => {
            step(registers, &mut Networks::new(), &[kind, r1, r2, r3]);
            Cycles {
                refusal: bits::CARRIED_OUT,
                cycles: cycles_of(kind),
            }
        }
        Err(refusal) => Cycles::from(refusal),
    }
}

// The value of one general register.
pub fn read(registers: &Registers, number: u8) -> Register
    ensures { result ≡ read_of registers.now number }
{
    match check_number(number) {
        Ok(()) => Register {
            refusal: bits::CARRIED_OUT,
            value: registers.general_at(number),
        },
        Err(refusal) => Register::from(refusal),
    }
}

// A value into one general register, or the refusal and the registers as they were.
pub fn write(registers: &mut Registers, number: u8, value: u64) -> u8
    ensures answer { result ≡ (write_of registers.old number value).refusal }
    ensures registers { registers.new ≡ (write_of registers.old number value).registers }
{
    match check_number(number) {
        Ok(()) => {
            registers.put(number, value);
            bits::CARRIED_OUT
        }
        Err(refusal) => u8::from(refusal),
    }
}
