//! Canonical expressions: polynomials modulo 2 to a width, in symbols and in the counters of loops,
//! as nested trees. Chains of recurrences as in Bachmann, Wang and Zima 1994 are the trees in
//! counters alone.
#![tactic(auto)]

mod assemble;
mod chains;
mod copies;
mod equal;
mod expr;
mod laws;
mod measure;
mod scaling;
mod tree;
mod variable;

pub use assemble::build;
pub use chains::chain;
pub use copies::copy_tree;
pub use equal::{equal_trees, trees_are_unique};
pub use expr::{Expr, copy, degree, num, same, scale, size, sym};
pub use laws::{
    polynomials_have_trees, sizes_are_those_of_coefficients, values_depend_on_variables,
    values_of_leaves,
};
pub use measure::{tree_degree, tree_size};
pub use scaling::scale_tree;
pub use tree::{Tree, is_zero, main_var};
pub use variable::Variable;

#[cfg(test)]
mod tests {
    use crate::{
        Variable, chain, copy, degree, is_zero, main_var, num, polynomials_have_trees, same, scale,
        size, sizes_are_those_of_coefficients, sym, trees_are_unique, values_depend_on_variables,
        values_of_leaves,
    };
    use arith_word::{Label, Width};
    use std::test::Fail;

    #[test]
    fn numbers_are_taken_modulo_the_width(rt: HostRuntime) {
        trees_are_unique();
        values_depend_on_variables();
        values_of_leaves();
        polynomials_have_trees();
        sizes_are_those_of_coefficients();
        let (Some(byte), Some(word)) = (Width::new(8), Width::new(64)) else {
            return;
        };
        assert!(rt; same(&num(byte, 300), &num(byte, 44)));
        assert!(rt; !same(&num(word, 300), &num(word, 44)));
        assert!(rt; !same(&num(byte, 44), &num(word, 44)));
        assert!(rt; is_zero(&num(byte, 256).tree));
        assert_eq!(rt; main_var(&num(byte, 7).tree), None);
    }

    #[test]
    fn symbols_and_multiples(rt: HostRuntime) -> Result<(), Fail> {
        let Some(byte) = Width::new(8) else {
            return Ok(());
        };
        let x = sym(rt.alloc(), byte, Label(5))?;
        assert_eq!(rt; main_var(&x.tree), Some(Label(5)));
        assert_eq!(rt; (size(&x), degree(&x)), (1, 1));
        assert!(rt; same(&x, &copy(rt.alloc(), &x)?));
        assert!(rt; !same(&x, &sym(rt.alloc(), byte, Label(6))?));
        let sixteen = scale(rt.alloc(), &x, 16)?;
        assert_eq!(rt; size(&sixteen), 1);
        assert!(rt; same(&scale(rt.alloc(), &sixteen, 16)?, &num(byte, 0)));
        Ok(())
    }

    #[test]
    fn chains_lose_zeros_at_the_end(rt: HostRuntime) -> Result<(), Fail> {
        let alloc = rt.alloc();
        let Some(byte) = Width::new(8) else {
            return Ok(());
        };
        let counted = chain(alloc, byte, Label(3), &[0, 257, 256])?;
        assert_eq!(rt; (size(&counted), degree(&counted)), (1, 1));
        let squares = chain(alloc, byte, Label(3), &[0, 1, 2])?;
        assert_eq!(rt; (size(&squares), degree(&squares)), (2, 2));
        assert_eq!(rt; main_var(&squares.tree), Some(Label(3)));
        assert!(rt; same(&chain(alloc, byte, Label(3), &[7, 0, 0])?, &num(byte, 7)));
        assert!(rt; is_zero(&chain(alloc, byte, Label(3), &[0, 0])?.tree));
        assert!(rt; !same(&counted, &squares));
        let x = Variable::symbol_of(Label(3));
        assert!(rt; Variable::counter_of(Label(3)).rank() < x.rank());
        assert!(rt; x.rank() < Variable::counter_of(Label(4)).rank());
        Ok(())
    }
}
