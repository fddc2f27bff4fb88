//! The parts of a request that a call of one function goes by.

ghost use Rattle.std.specs.Prelude.{◌≡◌, not};
ghost use Rattle.rhd_machine.specs.Plans.{without_host, is_unqualified, plan_of};

use rhd_func::CallRequest;
use rhd_value::{Position, Text, TypeTag};

/// The name that is called.
pub fn name_of(request: &CallRequest) -> &Text
    ensures { result.now ≡ (plan_of request.now).name }
{
    match request {
        CallRequest::Named { name, .. } => name,
        CallRequest::Qualified { name, .. } => name,
    }
}

/// The type that the answer has to have; any, where there is none.
pub fn want_of(request: &CallRequest) -> Option<TypeTag>
    ensures { result ≡ (plan_of request.now).want }
{
    match request {
        CallRequest::Named { want, .. } => *want,
        CallRequest::Qualified { .. } => None,
    }
}

/// Where the call is made.
pub fn position_of(request: &CallRequest) -> Position
    ensures { result ≡ (plan_of request.now).pos }
{
    match request {
        CallRequest::Named { pos, .. } => *pos,
        CallRequest::Qualified { pos, .. } => *pos,
    }
}

/// Whether a function of a module is called.
pub fn is_qualified(request: &CallRequest) -> bool
    ensures { result ≡ not (is_unqualified (plan_of request.now).search) }
{
    match request {
        CallRequest::Named { .. } => false,
        CallRequest::Qualified { .. } => true,
    }
}

/// Whether the host isn't asked where no function is found.
pub fn without_host(request: &CallRequest) -> bool
    ensures { result ≡ without_host (plan_of request.now).search }
{
    match request {
        CallRequest::Named { native_only, .. } => *native_only,
        CallRequest::Qualified { .. } => true,
    }
}
