//! The registers and flags that sums, differences, products and shifts write.

ghost use Rattle.std.specs.Prelude.{◌≡◌, ◌+◌, ◌-◌, ◌*◌, ◌/◌, ◌%◌, ◌^◌, ◌<◌, ◌≤◌, nat_le};
ghost use Rattle.x86_instr.specs.declared.operand.Reg.TheVariants.{Rax, Rdx};
ghost use Rattle.x86_instr.specs.declared.instr.Un.TheVariants.{Neg};
ghost use Rattle.x86_meaning.specs.Machine as spec;

use crate::state::State;
use x86_instr::Reg;

/// Whether the exact sum of signed words, 2^64 above its value, is outside 64 bits with a sign.
fn overflows(sum: u128) -> bool
    ensures { result ≡ spec.overflows sum }
{
    !(sum >= 1 << 63 && sum < 3 << 63)
}

/// A word as the number that is 2^63 above its signed value.
fn biased(word: u64) -> u128
    ensures value { result ≡ spec.biased word }
    ensures range { result < 2 ^ 64 }
{
    u128::from(word.wrapping_add(1 << 63))
}

/// A number modulo 2^64.
fn low_word(number: u128) -> u64
    ensures { result ≡ number % 2 ^ 64 }
{
    (number % (1 << 64)) as u64
}

/// The sum of a register's word, another word and a carry into the register, with its flags.
pub fn sum_into(state: &mut State, dst: Reg, word: u64, carry: bool)
    ensures { state.new ≡ spec.sum_into dst (spec.reg state.old dst) word (spec.bit carry) state.old }
{
    let old = state.reg(dst);
    let sum = u128::from(old) + u128::from(word) + u128::from(carry);
    let result = low_word(sum);
    state.cf = Some(sum >= 1 << 64);
    state.of = Some(overflows(biased(old) + biased(word) + u128::from(carry)));
    state.zf = Some(result == 0);
    state.set_reg(dst, result);
}

/// A register's word less another word and a borrow into the register, with its flags.
pub fn difference_into(state: &mut State, dst: Reg, word: u64, borrow: bool)
    ensures { state.new ≡ spec.difference_into dst (spec.reg state.old dst) word (spec.bit borrow) state.old }
{
    let old = state.reg(dst);
    let taken = u128::from(word) + u128::from(borrow);
    let result = low_word(u128::from(old) + (1 << 64) - taken);
    state.cf = Some(u128::from(old) < taken);
    state.of = Some(overflows(biased(old) + (1 << 64) - (biased(word) + u128::from(borrow))));
    state.zf = Some(result == 0);
    state.set_reg(dst, result);
}

/// The flags of a register's word less another.
pub fn compare(state: &mut State, dst: Reg, word: u64)
    ensures { state.new ≡ spec.compared (spec.reg state.old dst) word state.old }
{
    let old = state.reg(dst);
    state.cf = Some(old < word);
    state.of = Some(overflows(biased(old) + (1 << 64) - biased(word)));
    state.zf = Some(old.wrapping_sub(word) == 0);
}

/// The flags of a word that was computed bit by bit.
pub fn logic_flags(state: &mut State, word: u64)
    ensures { state.new ≡ spec.with_logic_flags word state.old }
{
    state.cf = Some(false);
    state.of = Some(false);
    state.zf = Some(word == 0);
}

/// Such a word into a register, with its flags.
pub fn logic_into(state: &mut State, dst: Reg, word: u64)
    ensures { state.new ≡ spec.with_logic_flags word (spec.with_reg dst word state.old) }
{
    state.set_reg(dst, word);
    logic_flags(state, word);
}

/// A word into a register, with all flags but the carry.
pub fn count_into(state: &mut State, dst: Reg, word: u64, overflow: bool)
    ensures { state.new ≡ spec.count_into dst word overflow state.old }
{
    state.of = Some(overflow);
    state.zf = Some(word == 0);
    state.set_reg(dst, word);
}

/// 0 less a register's word into the register, with its flags.
pub fn neg_into(state: &mut State, dst: Reg)
    ensures { state.new ≡ spec.un_into Neg dst (spec.reg state.old dst) state.old }
{
    let old = state.reg(dst);
    let result = 0u64.wrapping_sub(old);
    state.cf = Some(old != 0);
    state.of = Some(old == 1 << 63);
    state.zf = Some(result == 0);
    state.set_reg(dst, result);
}

/// The sum with the carry flag, which alone changes.
pub fn adcx_into(state: &mut State, dst: Reg, word: u64, carry: bool)
    ensures { state.new ≡ spec.adcx_into dst word (spec.bit carry) state.old }
{
    let sum = u128::from(state.reg(dst)) + u128::from(word) + u128::from(carry);
    state.cf = Some(sum >= 1 << 64);
    state.set_reg(dst, low_word(sum));
}

/// The sum with the overflow flag, which alone changes.
pub fn adox_into(state: &mut State, dst: Reg, word: u64, carry: bool)
    ensures { state.new ≡ spec.adox_into dst word (spec.bit carry) state.old }
{
    let sum = u128::from(state.reg(dst)) + u128::from(word) + u128::from(carry);
    state.of = Some(sum >= 1 << 64);
    state.set_reg(dst, low_word(sum));
}

/// The low and the high word of a product.
fn product(a: u64, b: u64) -> (u64, u64)
    ensures low { result.0 ≡ a * b % 2 ^ 64 }
    ensures high { result.1 ≡ a * b / 2 ^ 64 }
{
    let product = u128::from(a) * u128::from(b);
    (low_word(product), (product >> 64) as u64)
}

/// `rdx` times a word into two registers, the low word first.
pub fn mulx_into(state: &mut State, hi: Reg, lo: Reg, word: u64)
    ensures { state.new ≡ spec.mulx_into hi lo (spec.reg state.old Rdx * word) state.old }
{
    let (low, high) = product(state.reg(Reg::Rdx), word);
    state.set_reg(lo, low);
    state.set_reg(hi, high);
}

/// `rax` times a word into `rdx` and `rax`, with its flags.
pub fn mul_into(state: &mut State, word: u64)
    ensures { state.new ≡ spec.mul_into (spec.reg state.old Rax * word) state.old }
{
    let (low, high) = product(state.reg(Reg::Rax), word);
    state.set_reg(Reg::Rdx, high);
    state.set_reg(Reg::Rax, low);
    state.cf = Some(high != 0);
    state.of = Some(high != 0);
    state.zf = None;
}

/// The low word of a product into a register, with the flags undefined.
pub fn imul_into(state: &mut State, dst: Reg, word: u64)
    ensures { state.new ≡ spec.imul_into dst (spec.reg state.old dst * word) state.old }
{
    let (low, _) = product(state.reg(dst), word);
    state.set_reg(dst, low);
    state.cf = None;
    state.of = None;
    state.zf = None;
}
