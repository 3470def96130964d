//! A request that is refused.

use envvars::Env;
use modules::Request;
use std::alloc::Global;
use tclrules::Limits;

/// A request that is refused, and what it is run over.
#[derive(Clone, Copy)]
pub(crate) struct RefusedRequest<'a> {
    pub(crate) alloc: Global,
    pub(crate) request: &'a Request,
    pub(crate) env: &'a Env,
    pub(crate) limits: Limits,
}
