// The query of a list, at every width of its fingerprints: may this key be listed?
#![tactic(auto)]

ghost use Rattle.std.specs.Prelude.{◌≡◌, ◌≤◌, length, map};
ghost use Rattle.answers.specs.Answers.{number_of, refuses, gives};
ghost use Rattle.answers.specs.Paper.{paper};
ghost use Rattle.fuse.specs.Query.{contains_of, contains_bytes_of, told};
ghost use Rattle.descriptor.specs.Descriptor.{descriptor_size, descriptor_of};
ghost use Rattle.query.specs.FirstFault.{unseeded, suits_of, first_fault, answer_told};
ghost use Rattle.query.specs.Suited.{Suited};

use answers::Refusal;
use arith::fingerprint::{Fingerprint, left_over};
use arith::murmur3::mix;
use arith::slots::Segments;
use descriptor::{DESCRIPTOR_SIZE, Descriptor, LONGEST, LONGEST_SEGMENT, SHORTEST_SEGMENT};

// What a C program is told: 0 for no, 1 for yes, 16 plus the number of a refusal. With the record it can read the answer back off it.
#[tactic(auto, using(crate::specs::ToldBack::read_off))]
pub fn contains_told<F: Fingerprint>(descriptor: &[u8], fingerprints: &[F], key: u64) -> u32
    ensures told { result ≡ told (contains_bytes_of F.width descriptor.now (map F.bits fingerprints.now) key) }
    ensures back { descriptor_size ≤ length descriptor.now → answer_told result (descriptor_of descriptor.now)
        ≡ contains_of F.width (descriptor_of descriptor.now) (map F.bits fingerprints.now) key }
{
    match contains_bytes(descriptor, fingerprints, key) {
        Ok(listed) => u32::from(listed),
        Err(why) => why.code(),
    }
}

// Asked of the first twenty bytes of a descriptor.
pub fn contains_bytes<F: Fingerprint>(
    descriptor: &[u8],
    fingerprints: &[F],
    key: u64,
) -> Result<bool, Refusal>
    ensures { paper result ≡ contains_bytes_of F.width descriptor.now (map F.bits fingerprints.now) key }
{
    if descriptor.len() < DESCRIPTOR_SIZE {
        return Err(Refusal::ShortDescriptor);
    }
    contains(descriptor::parse(descriptor), fingerprints, key)
}

// Asked of the record.
pub fn contains<F: Fingerprint>(
    d: Descriptor,
    fingerprints: &[F],
    key: u64,
) -> Result<bool, Refusal>
    ensures { paper result ≡ contains_of F.width d (map F.bits fingerprints.now) key }
{
    if !suits(d, fingerprints.len()) {
        return Err(fault(d));
    }
    Ok(is_listed(d, fingerprints, key))
}

// Whether nothing is left over, where all checks have passed.
fn is_listed<F: Fingerprint>(d: Descriptor, fingerprints: &[F], key: u64) -> bool
    requires { Suited d (map F.bits fingerprints.now) }
    ensures { gives result ≡ contains_of F.width d (map F.bits fingerprints.now) key }
{
    let hash = mix(key, d.seed);
    let own = F::of_hash(hash);
    let segments = Segments {
        length: d.segment_length,
        mask: d.segment_length_mask,
        span: d.segment_count_length,
    };
    let slots = segments.slots(hash);
    left_over(own, fingerprints, slots).is_zero()
}

// Whether checks 8 to 11 pass, with this many fingerprints given.
// For speed apart from `fault`, and in this form: 87 instructions a query; 91 as one `&&`, 92 with the refusal, 107 by `descriptor::check`.
#[tactic(auto, using(crate::proofs::Tests::all_pass, crate::proofs::Tests::one_fails, crate::proofs::Tests::all_pass_unseeded, crate::proofs::Tests::one_fails_unseeded, std::proofs::lemmas::Bool::Decides::nat_tests))]
pub fn suits(d: Descriptor, given: usize) -> bool
    ensures checks { result ≡ suits_of d given }
    ensures no_seed { result ≡ suits_of (unseeded d.segment_length d.segment_length_mask d.segment_count_length) given }
{
    let segment = d.segment_length;
    let mask = d.segment_length_mask;
    let span = d.segment_count_length;
    let total = u64::from(span) + 2 * u64::from(segment);
    if total != given as u64
        || segment & mask != 0
        || span & mask != 0
        || u64::from(mask) + 1 != u64::from(segment)
        || span == 0
        || u64::from(LONGEST) < total
        || !(SHORTEST_SEGMENT..=LONGEST_SEGMENT).contains(&segment)
    {
        return false;
    }
    true
}

// The first of checks 8 to 11 that fails, where one does.
fn fault(d: Descriptor) -> Refusal
    ensures { refuses (number_of result) ≡ first_fault d }
{
    match descriptor::check(d) {
        Ok(()) => Refusal::FingerprintLength,
        Err(why) => why,
    }
}
