ghost use Rattle.std.specs.Prelude.{IfOk};
ghost use Rattle.fedrun_files.specs.Digests.{AreDigestsOf};
ghost use Rattle.fedrun_files.specs.Loaded.{input_file, AreSources};
ghost use Rattle.fedrun_hosts.specs.Begun.{IsDigestOfBoth, IsKeyOf};

use crate::fault::HostFault;
use crate::request::NodeRequest;
use crate::secret::read_key;
use fedrun_files::{Files, Sources, read_sources_and_bytes};
use fedrun_words::Fault;
use files_reports::FileDigests;
use std::alloc::Global;
use wires_greeting::{DIGEST_SIZE, Key, files_digest};
use wires_hosts::Teller;

/// What a node begins with.
#[derive(Drop)]
pub(crate) struct Loaded {
    pub sources: Sources,
    /// Of the two files, for its report.
    pub digests: FileDigests,
    /// Of both, for the greeting.
    pub files: [u8; DIGEST_SIZE],
    pub key: Key,
    /// Tells whoever watches what happens.
    pub teller: Teller,
}

/// Reads the federation, the recorded inputs and the secret, in this order. The node tells by `teller` what happens.
pub(crate) fn load<'a, F: Files>(
    alloc: Global,
    node: &NodeRequest<'a>,
    files: &mut F,
    teller: &Teller,
) -> Result<Loaded, Fault<'a, HostFault<'a>>>
    ensures sources { IfOk result (λ loaded.
        AreSources (F.contents files.old node.now.federation.now)
        (input_file (F.contents files.old) node.now.inputs.now) loaded.sources) }
    ensures digests { IfOk result (λ loaded.
        AreDigestsOf (F.contents files.old node.now.federation.now)
        (input_file (F.contents files.old) node.now.inputs.now) loaded.digests.federation loaded.digests.inputs) }
    ensures files { IfOk result (λ loaded.
        IsDigestOfBoth (F.contents files.old node.now.federation.now)
        (input_file (F.contents files.old) node.now.inputs.now) loaded.files) }
    ensures key { IfOk result (λ loaded.
        IsKeyOf (F.contents files.old) node.now.address node.now.secret loaded.key) }
{
    let (sources, bytes) = match read_sources_and_bytes(
        alloc,
        node.federation,
        node.inputs,
        files,
    ) {
        Ok(read) => read,
        Err(fault) => return Err(fault),
    };
    let digests = FileDigests::new(bytes.federation.as_slice(), bytes.inputs.as_slice());
    let both = files_digest(bytes.federation.as_slice(), bytes.inputs.as_slice());
    drop(bytes);
    let key = match read_key(node.secret, &node.address, files) {
        Ok(key) => key,
        Err(fault) => return Err(fault),
    };
    Ok(Loaded {
        sources,
        digests,
        files: both,
        key,
        teller: teller.another(),
    })
}
