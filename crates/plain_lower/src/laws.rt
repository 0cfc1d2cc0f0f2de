//! A law of the table of blocks: a function that does nothing, whose contract is the law.

ghost use Rattle.std.specs.Prelude.{◌≡◌, ◌<◌, ℕ, length, map, slice_index_or, []};
ghost use Rattle.std.specs.List.{flat_map};
ghost use Rattle.word_program.specs.declared.operation.Op.{Op};
ghost use Rattle.x86_instr.specs.Mnemonics.{mnemonic_of};
ghost use Rattle.templates.specs.Table.{templates_of};
ghost use Rattle.op_order.specs.Realises.{owned_by};
ghost use Rattle.plain_lower.specs.Blocks.{row_of};

/// The lines of a block that the operation owns have the mnemonics of its template, in order: of each template that
/// the operation has, by its number among them.
pub fn blocks_own_their_templates()
    ensures { (op : Op) (template number : ℕ) → template < length (templates_of op)
        → flat_map (λ line. owned_by line.owner (mnemonic_of line.instr)) ((row_of op.kind template).middle number)
        ≡ map (λ mnemonic. (number, mnemonic)) (slice_index_or (templates_of op) template []) }
{}
