//! What the claims of a namespace use, and whether its quota allows more.

use plain_data::copies::OutOfMemory;
use plain_data::text::Text;
use quota_rules::quotas::Quotas;
use sample_objects::lines::word;
use sample_objects::words::number;
use side_calls::quotas::{OverQuota, Quota, Used};
use std::alloc::Global;

pub fn quota(
    alloc: Global,
    namespace: &str,
    bytes: &str,
    claims: &str,
) -> Result<Quota, OutOfMemory> {
    Ok(Quota {
        namespace: Text::new(alloc, namespace)?,
        bytes: number(bytes),
        claims: number(claims),
    })
}

/// The bytes and the claims of a namespace.
pub fn used(alloc: Global, tally: &Quotas, namespace: &str) -> Result<String, OutOfMemory> {
    let used = tally.used(&Text::new(alloc, namespace)?);
    let (bytes, claims) = (used.bytes, used.claims);
    Ok(format!(in alloc; "{bytes} bytes {claims} claims")?)
}

fn over(alloc: Global, over: OverQuota) -> Result<String, OutOfMemory> {
    match over {
        OverQuota::OverBytes { used, limit } => {
            Ok(format!(in alloc; "OverBytes {used} of {limit}")?)
        }
        OverQuota::OverClaims { used, limit } => {
            Ok(format!(in alloc; "OverClaims {used} of {limit}")?)
        }
    }
}

/// Whether so many bytes and claims more are allowed.
pub fn allows(
    alloc: Global,
    tally: &Quotas,
    namespace: &str,
    bytes: &str,
    claims: &str,
) -> Result<String, OutOfMemory> {
    let namespace = Text::new(alloc, namespace)?;
    let more = Used {
        bytes: number(bytes) as u128,
        claims: number(claims),
    };
    match tally.allows(&namespace, more) {
        Ok(()) => word(alloc, "allowed"),
        Err(error) => over(alloc, error),
    }
}
