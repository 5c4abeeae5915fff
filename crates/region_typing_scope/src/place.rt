// Where bounds stand.

use crate::scope::Scope;
use crate::visible::Visible;
use pointer_modes::ctype::CType;

/// Where bounds stand: what is known there, the types of the locals of which they may speak, and the names of these.
#[derive(Clone, Copy)]
pub struct Place<'a> {
    pub scope: &'a Scope,
    pub locals: &'a [CType],
    pub visible: &'a [Visible],
}
