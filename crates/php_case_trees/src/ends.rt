// Prints what was read of a script, with the place of the token behind it.

use crate::printer::{print_expression, print_signature, print_statement};
use php_ast::{Expr, Signature, Stmt};
use std::alloc::{AllocError, Global};

/// An expression that nobody needs any more, and where it ends.
pub fn expression_before(alloc: Global, e: Expr, next: usize) -> Result<String, AllocError> {
    let printed = print_expression(alloc, e)?;
    format!(in alloc; "{printed} @{next}")
}

/// A signature that nobody needs any more, and where it ends.
pub fn signature_before(
    alloc: Global,
    signature: Signature,
    next: usize,
) -> Result<String, AllocError> {
    let printed = print_signature(alloc, signature)?;
    format!(in alloc; "{printed} @{next}")
}

/// A statement that nobody needs any more, and where it ends.
pub fn statement_before(alloc: Global, statement: Stmt, next: usize) -> Result<String, AllocError> {
    let printed = print_statement(alloc, statement)?;
    format!(in alloc; "{printed} @{next}")
}
