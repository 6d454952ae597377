//! The values of options by their words, whichever source the words come from.

ghost use Rattle.std.specs.Prelude.{◌≡◌, ◌≤◌, IfErr, IfOk, string_bytes, true, vec_len};
ghost use Rattle.iscsi_keys.specs.IscsiNames.{is_iscsi_name};
ghost use Rattle.program_options.specs.ChapDigests.{digests_in};
ghost use Rattle.program_options.specs.Profiles.{number_in, profile_in};
ghost use Rattle.program_options.specs.RecordFormats.{format_in};
ghost use Rattle.program_options.specs.Sizes.{memory_size_in, volume_size_in};
ghost use Rattle.program_options.specs.declared.option_fault.OptionFault.{OptionFault};
ghost use Rattle.std.specs.Net.Grammar.{IsSocketText};
ghost use Rattle.std.specs.declared.net.socket_addr.SocketAddr.{SocketAddr};
ghost use Rattle.given_options.specs.Words.{IsRefusal};

use crate::word_fault::WordFault;
use inquiry_data::LibraryNumber;
use program_options::{
    ChapDigests, NamedHost, OptionFault, PortalOptions, RecordFormat, chap_digests_of, host_beside,
    is_iscsi_name, library_number_of, memory_size_of, metrics_address_of, portal_of, profile_of,
    record_format_of, volume_size_of,
};
use scsi_cdb::Profile;
use std::alloc::{AllocError, Global};
use std::convert::AsStr;
use std::net::SocketAddr;

/// The most portals: as many as the target has ports (profile).
const MOST_PORTALS: usize = 4;

/// A fault of one word.
fn refused_word(alloc: Global, fault: OptionFault, word: &str) -> WordFault
    ensures { IsRefusal fault word.now result }
{
    match String::from_str(alloc, word) {
        Ok(word) => WordFault::Word(fault, word),
        Err(_) => WordFault::NoMemory,
    }
}

/// How many bytes of blocks a volume takes.
pub fn volume_size_by(alloc: Global, word: &str) -> Result<u64, WordFault>
    ensures ok { IfOk result (λ size. volume_size_in word.now ≡ Ok size) }
    ensures range { IfOk result (λ size. (1048576 ≤ size) × (size ≤ 68719476736)) }
    ensures err { IfErr result (λ refusal. (fault : OptionFault) × (volume_size_in word.now ≡ Err fault) × IsRefusal fault word.now refusal) }
{
    match volume_size_of(word) {
        Ok(size) => Ok(size),
        Err(fault) => Err(refused_word(alloc, fault, word)),
    }
}

/// Which profile a library has.
pub fn profile_by(alloc: Global, word: &str) -> Result<Profile, WordFault>
    ensures ok { IfOk result (λ profile. profile_in word.now ≡ Ok profile) }
    ensures err { IfErr result (λ refusal. (fault : OptionFault) × (profile_in word.now ≡ Err fault) × IsRefusal fault word.now refusal) }
{
    match profile_of(word) {
        Ok(profile) => Ok(profile),
        Err(fault) => Err(refused_word(alloc, fault, word)),
    }
}

/// Which number a library has.
pub fn library_number_by(alloc: Global, word: &str) -> Result<LibraryNumber, WordFault>
    ensures ok { IfOk result (λ number. number_in word.now ≡ Ok number) }
    ensures err { IfErr result (λ refusal. (fault : OptionFault) × (number_in word.now ≡ Err fault) × IsRefusal fault word.now refusal) }
{
    match library_number_of(word) {
        Ok(number) => Ok(number),
        Err(fault) => Err(refused_word(alloc, fault, word)),
    }
}

/// How many bytes of memory volumes may take together.
pub fn memory_size_by(alloc: Global, word: &str) -> Result<u64, WordFault>
    ensures ok { IfOk result (λ size. memory_size_in word.now ≡ Ok size) }
    ensures err { IfErr result (λ refusal. (fault : OptionFault) × (memory_size_in word.now ≡ Err fault) × IsRefusal fault word.now refusal) }
{
    match memory_size_of(word) {
        Ok(size) => Ok(size),
        Err(fault) => Err(refused_word(alloc, fault, word)),
    }
}

/// Where metrics are asked for. Whether other machines may read them there is judged once all sources are read.
pub fn metrics_by(alloc: Global, word: &str) -> Result<SocketAddr, WordFault>
    ensures ok { IfOk result (λ address. IsSocketText word.now address) }
    ensures err { IfErr result (λ refusal. IsRefusal OptionFault.BadAddress word.now refusal × ((address : SocketAddr) → ¬ IsSocketText word.now address)) }
{
    match metrics_address_of(word) {
        Ok(address) => Ok(address),
        Err(fault) => Err(refused_word(alloc, fault, word)),
    }
}

/// By which digests initiators may prove that a name is theirs.
pub fn digests_by(alloc: Global, word: &str) -> Result<ChapDigests, WordFault>
    ensures ok { IfOk result (λ digests. digests_in word.now ≡ Ok digests) }
    ensures err { IfErr result (λ refusal. (fault : OptionFault) × (digests_in word.now ≡ Err fault) × IsRefusal fault word.now refusal) }
{
    match chap_digests_of(word) {
        Ok(digests) => Ok(digests),
        Err(fault) => Err(refused_word(alloc, fault, word)),
    }
}

/// In which form records are written into a file.
pub fn format_by(alloc: Global, word: &str) -> Result<RecordFormat, WordFault>
    ensures ok { IfOk result (λ format. format_in word.now ≡ Ok format) }
    ensures err { IfErr result (λ refusal. (fault : OptionFault) × (format_in word.now ≡ Err fault) × IsRefusal fault word.now refusal) }
{
    match record_format_of(word) {
        Ok(format) => Ok(format),
        Err(fault) => Err(refused_word(alloc, fault, word)),
    }
}

/// The target's iSCSI name.
pub fn target_name_by(alloc: Global, word: &str) -> Result<String, WordFault>
    ensures name { IfOk result (λ name. is_iscsi_name (string_bytes name) ≡ true) }
    ensures same { IfOk result (λ name. string_bytes name ≡ word.now) }
{
    if is_iscsi_name(word.as_bytes()) {
        Ok(String::from_str(alloc, word)?)
    } else {
        Err(refused_word(alloc, OptionFault::BadName, word))
    }
}

/// The portals of so many words, of which there is one at least: the first is portal group 1, and so on. Whether other machines may come
/// in there is judged once all sources are read.
pub fn portals_by(alloc: Global, words: &[&str]) -> Result<Vec<PortalOptions>, WordFault>
    ensures { IfOk result (λ portals. (1 ≤ vec_len portals) × (vec_len portals ≤ 4)) }
{
    let mut portals = Vec::new(alloc);
    for word in words {
        match portal_of(*word, true) {
            Ok(portal) => {
                let portal = portal.to_portal(alloc)?;
                portals.push(portal).map_err(AllocError::from)?;
            }
            Err(fault) => return Err(refused_word(alloc, fault, *word)),
        }
    }
    if portals.is_empty() {
        return Err(WordFault::NoWords);
    }
    if portals.len() > MOST_PORTALS {
        return Err(WordFault::Options(OptionFault::ManyPortals));
    }
    Ok(portals)
}

/// The hosts that are let in by name, each by its word `NAME=SAS`.
pub fn hosts_by<S: AsStr>(alloc: Global, words: &[S]) -> Result<Vec<NamedHost>, WordFault> {
    let mut hosts = Vec::new(alloc);
    for word in words {
        let word = word.as_str();
        match host_beside(&hosts, word.as_bytes()) {
            Ok(host) => {
                let host = host.to_host(alloc)?;
                hosts.push(host).map_err(AllocError::from)?;
            }
            Err(fault) => return Err(refused_word(alloc, fault, word)),
        }
    }
    Ok(hosts)
}
