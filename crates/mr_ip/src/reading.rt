//! A packet's head read from its bytes.
ghost use Rattle.std.specs.Prelude.{◌≡◌, ◌≤◌, length, Some, None, IfOk, IfErr};
ghost use Rattle.mr_base.specs.Heads as heads;
ghost use Rattle.mr_base.specs.AcceptedHeads.{IsHeadOf};
ghost use Rattle.mr_ip.specs.Bodies.{body_of};

use crate::cause::cause_of;
use crate::fields::{four_at, head_length, two_at};
use mr_base::{Addr, Few, Head, HeadError};

/// The head with which a packet's bytes begin, options included, where it is accepted (RFC 791
/// section 3.1, the checksum by RFC 1071). What stands behind the head is not looked at, and may be
/// longer than the total length says. It takes no memory.
///
/// # Errors
///
/// The first cause for which the head is not accepted, in the order of `HeadError`.
pub fn read_head(bytes: &[u8]) -> Result<Head, HeadError>
    ensures cause { IfErr result (λ e. heads.cause_of bytes.now ≡ Some e) }
    ensures accepted { IfOk result (λ _. heads.cause_of bytes.now ≡ None) }
    ensures head { IfOk result (λ h. IsHeadOf h bytes.now) }
{
    match cause_of(bytes) {
        Some(cause) => Err(cause),
        None => Ok(head_of(bytes)),
    }
}

/// The head with which accepted bytes begin, options included (RFC 791 section 3.1). It takes no
/// memory.
pub fn accepted_head(bytes: &[u8]) -> Head
    requires { heads.cause_of bytes.now ≡ None }
    ensures { IsHeadOf result bytes.now }
{
    head_of(bytes)
}

/// What stands behind the head of accepted bytes, up to the packet's total length.
pub fn accepted_body(bytes: &[u8]) -> &[u8]
    requires { heads.cause_of bytes.now ≡ None }
    ensures { result.now ≡ body_of bytes.now }
{
    body_in(bytes)
}

/// What stands behind the head, up to the total length.
fn body_in(bytes: &[u8]) -> &[u8]
    requires enough { 20 ≤ length bytes.now }
    requires head { heads.head_length bytes.now ≤ heads.two_at bytes.now 2 }
    requires total { heads.two_at bytes.now 2 ≤ length bytes.now }
    ensures { result.now ≡ body_of bytes.now }
{
    let head = head_length(bytes);
    let total = usize::from(two_at(bytes, 2));
    &bytes[head..total]
}

/// The head with which accepted bytes begin.
fn head_of(bytes: &[u8]) -> Head
    requires accepted { heads.cause_of bytes.now ≡ None }
    requires enough { 20 ≤ length bytes.now }
    ensures { IsHeadOf result bytes.now }
{
    Head {
        bytes: Few::from_slice(&bytes[..head_length(bytes)]),
        length: two_at(bytes, 2),
        ttl: bytes[8],
        src: Addr(four_at(bytes, 12)),
        dst: Addr(four_at(bytes, 16)),
    }
}
