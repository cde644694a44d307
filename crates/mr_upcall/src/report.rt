//! Reports as bytes.
ghost use Rattle.std.specs.Prelude.{◌≡◌, ◌≤◌, ◌++◌, length, IfOk, OnOk};
ghost use Rattle.mr_upcall.specs.Reports.{type_of, message_fields, message_bytes, short_report};
ghost use Rattle.mr_upcall.specs.Reports.{whole_report, report_bytes};

use crate::upcall::Upcall;
use mr_base::{Head, Memory};
use mr_model::{Kind, MessageId};
use std::alloc::{AllocError, Global};

/// How many bytes of the type and zeros stand behind a report without the packet.
const TRAILER: usize = 8;

/// The length of a head without options, in bytes.
const PLAIN_HEAD: usize = 20;

/// The bytes of a head.
fn head_bytes(head: &Head) -> &[u8]
    ensures bytes { result.now ≡ head.now.bytes }
    ensures longest { length result.now ≤ 60 }
    ensures shortest { 20 ≤ length result.now }
{
    head.bytes.0.as_slice()
}

/// The type of a report in mroute.h.
fn type_of(kind: Kind) -> u8
    ensures { result ≡ type_of kind }
{
    match kind {
        Kind::NoCache => 1,
        Kind::WrongVif => 2,
        Kind::WholePkt => 3,
    }
}

/// The fields of a message in front of the addresses.
fn message_fields(first: u8, head: &[u8], total: u16, kind: Kind, vif: u8) -> [u8; 12]
    requires { 8 ≤ length head.now }
    ensures { result ≡ message_fields first head.now total kind vif }
{
    let [high, low] = total.to_be_bytes();
    let [vif_low, vif_high] = u16::from(vif).to_le_bytes();
    let kind = type_of(kind);
    [
        first, head[1], high, low, head[4], head[5], head[6], head[7], kind, 0, vif_low, vif_high,
    ]
}

/// Puts a message made of a head with this first byte and total length.
fn put_message(
    out: &mut Vec<u8>,
    first: u8,
    head: &[u8],
    total: u16,
    kind: Kind,
    vif: u8,
) -> Result<(), AllocError>
    requires { 12 ≤ length head.now }
    ensures { OnOk result
        (out.new.items ≡ out.old.items ++ message_bytes first head.now total kind vif) }
{
    let fields = message_fields(first, head, total, kind, vif);
    out.extend_from_slice(&fields)?;
    out.extend_from_slice(&head[12..])?;
    Ok(())
}

/// A report without the packet.
fn short_report(alloc: Global, kind: Kind, vif: u8, head: &Head) -> Result<Vec<u8>, AllocError>
    ensures { IfOk result (λ bytes. bytes.items ≡ short_report kind vif head.now.bytes) }
{
    let bytes = head_bytes(head);
    let total = bytes.len() + TRAILER;
    let mut out = Vec::with_capacity(alloc, total)?;
    put_message(&mut out, bytes[0], bytes, total as u16, kind, vif)?;
    out.extend_from_slice(&[type_of(kind), 0, 0, 0, 0, 0, 0, 0])?;
    Ok(out)
}

/// A report with the packet.
fn whole_report(alloc: Global, vif: u8, head: &Head, body: &[u8]) -> Result<Vec<u8>, AllocError>
    ensures { IfOk result
        (λ bytes. bytes.items ≡ whole_report vif head.now.bytes head.now.length body.now) }
{
    let bytes = head_bytes(head);
    let mut out = Vec::with_capacity(alloc, PLAIN_HEAD + bytes.len() + body.len())?;
    let first = bytes[0] / 16 * 16 + (PLAIN_HEAD / 4) as u8;
    let total = head.length.wrapping_add(PLAIN_HEAD as u16);
    put_message(
        &mut out,
        first,
        &bytes[..PLAIN_HEAD],
        total,
        Kind::WholePkt,
        vif,
    )?;
    out.extend_from_slice(bytes)?;
    out.extend_from_slice(body)?;
    Ok(out)
}

/// The bytes of a report, as the owner reads them (struct igmpmsg of mroute.h): a message of 20
/// to 60 bytes, and then the type with seven zeros, or for `WholePkt` the whole packet. `body` is
/// what follows the head in the packet.
///
/// # Errors
/// `Memory` where there is none for the bytes.
pub fn bytes_of(alloc: Global, message: &Upcall, body: &[u8]) -> Result<Vec<u8>, Memory>
    ensures { IfOk result (λ bytes. bytes.items ≡ report_bytes message.now body.now) }
{
    let MessageId { kind, vif, .. } = message.id;
    let made = match kind {
        Kind::NoCache | Kind::WrongVif => short_report(alloc, kind, vif, &message.head),
        Kind::WholePkt => whole_report(alloc, vif, &message.head, body),
    };
    match made {
        Ok(bytes) => Ok(bytes),
        Err(_) => Err(Memory),
    }
}
