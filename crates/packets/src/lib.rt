// Packets of records (document 02, ask 8): how many records a packet has, and what one says.
#![tactic(auto)]

ghost use Rattle.std.specs.Prelude.{◌≡◌, ◌+◌, ◌≤◌, ◌<◌, length, drop, IfOk, IfErr};
ghost use Rattle.packets.specs.Packet.{size_of, arrival_of, counted, count_of};

use events::Arrival;
use refusals::Refusal;

// The octets of the record that starts at `at`.
pub fn size_at(packet: &[u8], at: usize) -> usize
    requires { at + 15 ≤ length packet.now }
    ensures { (result ≡ size_of (drop at packet.now)) × (result < 8589934592) }
{
    let body = octets::num::<4>(packet, at + 11);
    15 + usize::from(packet[at + 5]) + body as usize
}

// What stands behind the record that `octets` begin with, unless that is cut.
fn behind_first(octets: &[u8]) -> Result<&[u8], Refusal>
    ensures whole { IfOk result (λ rest. (size_of octets.now ≤ length octets.now) × (rest.now ≡ drop (size_of octets.now) octets.now)) }
    ensures cut { IfErr result (λ refusal. (refusal ≡ Refusal.Record) × (length octets.now < size_of octets.now)) }
{
    if octets.len() < 15 {
        return Err(Refusal::Record);
    }
    octets.get(size_at(octets, 0)..).ok_or(Refusal::Record)
}

// How many records a packet has: refused with 11 where one is cut or there are more than 64.
pub fn count_of(packet: &[u8]) -> Result<u8, Refusal>
    ensures count { counted result ≡ count_of packet.now }
    ensures few { IfOk result (λ n. n ≤ 64) }
    ensures refusal { IfErr result (λ refusal. refusal ≡ Refusal.Record) }
{
    let mut rest = packet;
    for n in 0..64 {
        if rest.is_empty() {
            return Ok(n);
        }
        rest = behind_first(rest)?;
    }
    if rest.is_empty() {
        Ok(64)
    } else {
        Err(Refusal::Record)
    }
}

// What the record that starts at `at` says beside its time, key and body.
pub fn arrival_at(packet: &[u8], at: usize) -> Arrival
    requires { at + 15 ≤ length packet.now }
    ensures { result ≡ arrival_of (drop at packet.now) }
{
    Arrival {
        mark: u32::from(packet[at + 4]),
        release: u32::from(packet[at + 6]),
        version: u32::from(packet[at + 7]),
        extension: packet[at + 8],
        format: u32::from(packet[at + 9]),
        ts: u32::from(packet[at + 10]),
    }
}
