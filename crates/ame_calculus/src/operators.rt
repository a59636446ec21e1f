//! The rules of the operators.

ghost use Rattle.std.specs.Prelude.{◌≡◌, ℤ, int_lt};
ghost use Rattle.std.specs.Int.{w64, int_wrapping_add, int_wrapping_sub, int_wrapping_mul};
ghost use Rattle.std.specs.Ordering.{int_eq};
ghost use Rattle.ame_term.specs.Act.{Act, act_of};
ghost use Rattle.ame_term.specs.Tree.{Val, Tree};
ghost use Rattle.ame_term.specs.declared.types.Op.{Op};
ghost use Rattle.ame_laws.specs.Rules.{operator_form};

/// Says what each operator becomes at two integers. Sums, differences and products wrap at 64 bits.
pub fn operators_compute()
    ensures sum { (x y : ℤ) → act_of (operator_form Op.Add x y) ≡ Act.Becomes (Tree.Held (Val.Int (int_wrapping_add w64 x y))) }
    ensures difference { (x y : ℤ) → act_of (operator_form Op.Sub x y) ≡ Act.Becomes (Tree.Held (Val.Int (int_wrapping_sub w64 x y))) }
    ensures product { (x y : ℤ) → act_of (operator_form Op.Mul x y) ≡ Act.Becomes (Tree.Held (Val.Int (int_wrapping_mul w64 x y))) }
    ensures less { (x y : ℤ) → act_of (operator_form Op.Less x y) ≡ Act.Becomes (Tree.Held (Val.Bool (int_lt x y))) }
    ensures same { (x y : ℤ) → act_of (operator_form Op.Same x y) ≡ Act.Becomes (Tree.Held (Val.Bool (int_eq x y))) }
{}
