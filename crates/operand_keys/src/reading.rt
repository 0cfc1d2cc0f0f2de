use crate::highs::result_highs;
use crate::program_keys::Keys;
use crate::shapes::{LateStore, Shape};
use crate::words::{Cell, Key, Word};
use intervals::Interval;
use std::alloc::{AllocError, Global};
use word_program::{Bounds, Kind, Op, Operand, Param, Program, Role, Target};

const EVERY_WORD: Bounds = Bounds {
    low: 0,
    high: u64::MAX,
};

/// The keys of a program. The one error is want of memory.
pub fn keys_of(alloc: Global, program: &Program) -> Result<Keys, AllocError> {
    let mut keys = Keys::empty(alloc);
    for _ in 0..program.values() {
        keys.push_word(Word::Value, u64::MAX)?;
    }
    add_parameters(&mut keys, program.params())?;
    keys.intern(0)?;
    let intervals = bounds::intervals(alloc, program)?;
    add_operations(&mut keys, program, intervals.as_slice())?;
    Ok(keys)
}

fn add_parameters(keys: &mut Keys, params: &[Param]) -> Result<(), AllocError> {
    for param in params {
        add_parameter(keys, param)?;
    }
    Ok(())
}

fn add_parameter(keys: &mut Keys, param: &Param) -> Result<(), AllocError> {
    match param.role {
        Role::Output => {
            let pointer = keys.push_word(Word::OutputPlace, u64::MAX)?;
            keys.push_parameter(pointer, pointer)
        }
        Role::InputArray => {
            let pointer = keys.push_word(Word::InputPlace, u64::MAX)?;
            keys.push_parameter(pointer, keys.count())?;
            add_input_words(keys, pointer, param.bounds.items())
        }
        Role::InputScalar => {
            let high = bounds_at(param.bounds.items(), 0).high;
            let scalar = keys.push_word(Word::Scalar, high)?;
            keys.push_parameter(scalar, scalar)
        }
    }
}

fn add_input_words(keys: &mut Keys, pointer: Key, bounds: &[Bounds]) -> Result<(), AllocError> {
    let mut word = 0u8;
    for bound in bounds {
        keys.push_word(Word::Input(Cell { pointer, word }), bound.high)?;
        word = word.saturating_add(1);
    }
    Ok(())
}

fn bounds_at(bounds: &[Bounds], word: usize) -> Bounds {
    bounds.get(word).copied().unwrap_or(EVERY_WORD)
}

/// The bounds of a word of a parameter.
fn word_bounds(params: &[Param], param: u8, word: u8) -> Bounds {
    match params.get(usize::from(param)) {
        Some(param) => bounds_at(param.bounds.items(), usize::from(word)),
        None => EVERY_WORD,
    }
}

fn is_array(params: &[Param], param: u8) -> bool {
    match params.get(usize::from(param)) {
        Some(param) => matches!(param.role, Role::InputArray),
        None => false,
    }
}

fn operand_key(keys: &mut Keys, program: &Program, operand: Operand) -> Result<Key, AllocError> {
    match operand {
        Operand::Literal(number) => keys.intern(number),
        Operand::Value(value) => Ok(keys.canonical(usize::from(value))),
        Operand::Input { param, word } => {
            let bounds = word_bounds(program.params(), param, word);
            if bounds.low == bounds.high {
                return keys.intern(bounds.low);
            }
            Ok(keys.input_word(param, word))
        }
    }
}

/// The word of an input array that an operand is in the program.
fn operand_cell(keys: &Keys, program: &Program, operand: Operand) -> Option<Cell> {
    let Operand::Input { param, word } = operand else {
        return None;
    };
    if !is_array(program.params(), param) {
        return None;
    }
    Some(Cell {
        pointer: keys.pointer(param),
        word,
    })
}

/// The shape of an operation with the operands alone.
fn shape_of(keys: &mut Keys, program: &Program, op: &Op) -> Result<Shape, AllocError> {
    let zero = keys.zero();
    let mut shape = Shape {
        kind: op.kind,
        first: keys.values(),
        count: op.args.items().len(),
        operands: [zero; 3],
        cells: [None; 3],
        targets: [Target::Unused; 2],
        shifts: shift_keys(keys, op.kind)?,
    };
    for (place, operand) in op.args.items().iter().enumerate() {
        let key = operand_key(keys, program, *operand)?;
        let cell = operand_cell(keys, program, *operand);
        set_operand(&mut shape, place, key, cell);
    }
    Ok(shape)
}

fn set_operand(shape: &mut Shape, place: usize, key: Key, cell: Option<Cell>) {
    if let Some(at) = shape.operands.get_mut(place) {
        *at = key;
    }
    if let Some(at) = shape.cells.get_mut(place) {
        *at = cell;
    }
}

fn shift_keys(keys: &mut Keys, kind: Kind) -> Result<[Key; 2], AllocError> {
    let (Kind::Shl(count) | Kind::Shr(count) | Kind::Shrd(count)) = kind else {
        return Ok([keys.zero(); 2]);
    };
    let by = keys.intern(u64::from(count))?;
    let rest = keys.intern(64u64.saturating_sub(u64::from(count)))?;
    Ok([by, rest])
}

/// The key of a result's word: a literal where it is one number, the operand where it is copied, else the value.
fn result_key(
    keys: &mut Keys,
    shape: &Shape,
    value: Key,
    interval: Interval,
    late: bool,
) -> Result<Key, AllocError> {
    if interval.low == interval.high {
        return keys.intern(interval.low);
    }
    if matches!(shape.kind, Kind::Copy) && !late {
        return Ok(shape.operand(0));
    }
    Ok(value)
}

/// Adds the result with this number of an operation.
fn add_result(
    keys: &mut Keys,
    program: &Program,
    shape: &mut Shape,
    op: usize,
    number: usize,
    target: Target,
    interval: Interval,
) -> Result<(), AllocError> {
    let late = program.overlap() && matches!(target, Target::Output { .. });
    let value = shape.first.saturating_add(number);
    let key = result_key(keys, shape, value, interval, late)?;
    let (first, second) = result_highs(
        shape.kind,
        keys.high(shape.operand(0)),
        keys.high(shape.operand(1)),
        keys.high(shape.operand(2)),
    );
    keys.push_result(op, key, if number == 0 { first } else { second })?;
    if let Some(at) = shape.targets.get_mut(number) {
        *at = if late { Target::Value } else { target };
    }
    if late {
        add_late(keys, key, target)?;
    }
    Ok(())
}

fn add_late(keys: &mut Keys, key: Key, target: Target) -> Result<(), AllocError> {
    let Target::Output { param, word } = target else {
        return Ok(());
    };
    let pointer = keys.pointer(param);
    keys.push_late(LateStore {
        key,
        cell: Cell { pointer, word },
    })
}

/// Adds the operation with this number.
fn add_operation(
    keys: &mut Keys,
    program: &Program,
    intervals: &[Interval],
    number: usize,
    op: &Op,
) -> Result<(), AllocError> {
    let mut shape = shape_of(keys, program, op)?;
    for (result, target) in op.targets.items().iter().enumerate() {
        let value = shape.first.saturating_add(result);
        let interval = intervals.get(value).copied().unwrap_or(intervals::full());
        add_result(keys, program, &mut shape, number, result, *target, interval)?;
    }
    let uses = uses_of(keys, &shape)?;
    keys.push_shape(shape, uses)
}

fn add_operations(
    keys: &mut Keys,
    program: &Program,
    intervals: &[Interval],
) -> Result<(), AllocError> {
    for (number, op) in program.ops().iter().enumerate() {
        add_operation(keys, program, intervals, number, op)?;
    }
    Ok(())
}

/// Adds a key, unless it is there.
fn add_use(uses: &mut Vec<Key>, key: Key) -> Result<(), AllocError> {
    if uses.iter().any(|other| *other == key) {
        return Ok(());
    }
    uses.push(key)?;
    Ok(())
}

fn add_operand_uses(keys: &Keys, shape: &Shape, uses: &mut Vec<Key>) -> Result<(), AllocError> {
    for key in shape.operands.iter().take(shape.count) {
        add_use(uses, *key)?;
        if let Word::Input(cell) = keys.word(*key) {
            add_use(uses, cell.pointer)?;
        }
    }
    Ok(())
}

/// The keys that an operation needs, each once: at most eight.
fn uses_of(keys: &Keys, shape: &Shape) -> Result<Vec<Key>, AllocError> {
    let mut uses = Vec::new(keys.allocator());
    add_operand_uses(keys, shape, &mut uses)?;
    add_cell_uses(shape, &mut uses)?;
    add_target_uses(keys, shape, &mut uses)?;
    Ok(uses)
}

fn add_cell_uses(shape: &Shape, uses: &mut Vec<Key>) -> Result<(), AllocError> {
    for cell in shape.cells.iter().flatten() {
        add_use(uses, cell.pointer)?;
    }
    Ok(())
}

fn add_target_uses(keys: &Keys, shape: &Shape, uses: &mut Vec<Key>) -> Result<(), AllocError> {
    for target in shape.targets.iter() {
        if let Target::Output { param, .. } = target {
            add_use(uses, keys.pointer(*param))?;
        }
    }
    Ok(())
}
