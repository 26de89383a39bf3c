ghost use Rattle.std.specs.Prelude.{◌≡◌, [], IfOk, IfErr};
ghost use Rattle.wires_greeting.specs.Hmac.{key_block};
ghost use Rattle.fedrun_words.specs.declared.fault.Fault.TheVariants.{More as of_host};
ghost use Rattle.fedrun_files.specs.Answers.{Answers};
ghost use Rattle.fedrun_hosts.specs.Begun.{IsOfThisMachine, IsKeyOf, IsKeyOfFile, IsKeyFault, IsSecretFault};
ghost use Rattle.fedrun_hosts.specs.declared.fault.HostFault.TheVariants.{Secret as of_secret};

use crate::fault::HostFault;
use fedrun_files::{FileFault, Files, fault_of};
use fedrun_words::Fault;
use wires_greeting::key::MOST_SECRET;
use wires_greeting::{Key, SecretFault};
use wires_hosts::HostAddress;

/// The key by which a node proves who it is, with this address: of the secret in the file of this name, or where none is
/// given, the empty one, at an address of loopback alone.
pub(crate) fn read_key<'a, F: Files>(
    secret: Option<&'a str>,
    address: &HostAddress,
    files: &mut F,
) -> Result<Key, Fault<'a, HostFault<'a>>>
    ensures key { IfOk result (IsKeyOf (F.contents files.old) address.now secret.entry) }
    ensures fault { IfErr result (IsKeyFault (F.contents files.old) (Answers (F.answers files.old) (F.answers files.new))
        address.now secret.entry) }
{
    match secret {
        Some(name) => key_in_file(name, files),
        None => key_without_secret(address),
    }
}

// The key of the secret in a file.
fn key_in_file<'a, F: Files>(name: &'a str, files: &mut F) -> Result<Key, Fault<'a, HostFault<'a>>>
    ensures key { IfOk result (IsKeyOfFile (F.contents files.old name.entry.now)) }
    ensures fault { IfErr result (IsSecretFault name.entry (F.contents files.old name.entry.now)
        (Answers (F.answers files.old) (F.answers files.new))) }
{
    match files.bytes(name, MOST_SECRET) {
        Ok(secret) => match Key::of_secret(secret.as_slice()) {
            Ok(key) => Ok(key),
            Err(why) => Err(Fault::More(HostFault::Secret(why))),
        },
        Err(FileFault::OverLimit) => Err(Fault::More(HostFault::Secret(SecretFault::TooLong))),
        Err(FileFault::Unreadable) => Err(fault_of(name, FileFault::Unreadable)),
        Err(FileFault::Memory) => Err(fault_of(name, FileFault::Memory)),
    }
}

// The empty key, for an address of loopback.
fn key_without_secret<'a>(address: &HostAddress) -> Result<Key, Fault<'a, HostFault<'a>>>
    ensures key { IfOk result (λ key. IsOfThisMachine address.now × (key ≡ key_block [])) }
    ensures fault { IfErr result (λ fault. (¬ IsOfThisMachine address.now)
        × (fault ≡ of_host (of_secret SecretFault.Missing))) }
{
    let HostAddress::At(address) = address else {
        return Err(Fault::More(HostFault::Secret(SecretFault::Missing)));
    };
    match Key::without_secret(&address.ip()) {
        Ok(key) => Ok(key),
        Err(why) => Err(Fault::More(HostFault::Secret(why))),
    }
}
