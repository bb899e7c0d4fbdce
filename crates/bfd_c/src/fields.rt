//! One session by its fields, as C gives them.
ghost use Rattle.std.specs.Prelude.{◌≡◌, ◌≤◌, ◌<◌, true, IfSome, Some, length};
ghost use Rattle.bfd_rules.specs.Sound.{is_interval, is_echo_interval};
ghost use Rattle.bfd_script.specs.Secrets as secrets;
ghost use Rattle.bfd_script.specs.Ranges.{AreKeys};
ghost use Rattle.bfd_script.specs.Values.{IsAddress};
ghost use Rattle.bfd_c.specs.Fields as fields;
ghost use Rattle.bfd_c.specs.Fields.{config_of, has_name, is_paired, has_sending, keys_from_c};
ghost use Rattle.bfd_c.specs.Singles.{HasName, IsPaired, HasSending, IsInRanges};
ghost use Rattle.bfd_c.specs.Wire.{addr_of};

use crate::wire::{Address, read_address};
use bfd_mp::{HeadConfig, TailConfig};
use bfd_packet::{Addr, AuthType, Key, Keys, Secret};
use bfd_rules::{Config, Role, is_interval};
use bfd_sbfd::InitiatorConfig;
use bfd_session::SessionConfig;

/// A session by its fields: those of a table line, with the same ranges. What the kind doesn't use counts for nothing, except `auth`.
/// Intervals are in microseconds.
#[repr(C)]
#[derive(Clone, Copy, Drop)]
pub struct Fields {
    pub size: u32,
    /// 1 point-to-point over a single hop, 2 over several, 3 an initiator, 4 a head, 5 a tail.
    pub kind: u32,
    /// The local discriminator, from 1.
    pub discr: u32,
    /// Of an initiator the reflector's discriminator, of a tail the head's; from 1.
    pub other: u32,
    /// The interface's number, 0 to 65,535.
    pub iface: u32,
    /// The address to send from; of a tail the group.
    pub local: Address,
    /// The peer's address; of a head the group, of a tail the head's.
    pub remote: Address,
    /// 1 active, 0 passive.
    pub active: u32,
    /// 10,000 to 60,000,000.
    pub tx: u32,
    /// 10,000 to 60,000,000.
    pub rx: u32,
    /// 1 to 255.
    pub mult: u32,
    /// 0, or over a single hop 10,000 to 60,000,000.
    pub echo: u32,
    pub seed: u32,
    /// 0 for no authentication, or the Auth Type 1 to 5 of the one key. Kinds 3 to 5 have no authentication: 0.
    pub auth: u32,
    /// 0 to 255.
    pub key_id: u32,
    /// 1 to 16, or with SHA1 to 20.
    pub key_len: u32,
    pub key: [u8; 20],
}

/// The Auth Type of a number 1 to 5.
fn kind_by(n: u32) -> AuthType
    ensures { result ≡ secrets.kind_by n }
{
    match n {
        1 => AuthType::Password,
        2 => AuthType::KeyedMd5,
        3 => AuthType::MeticulousMd5,
        4 => AuthType::KeyedSha1,
        _ => AuthType::MeticulousSha1,
    }
}

/// The one key of this type, where its length is one that the type allows.
fn one_key(kind: AuthType, id: u8, bytes: &[u8]) -> Option<Keys>
    requires { length bytes.now ≤ 20 }
    ensures value { result ≡ fields.key_by kind id bytes.now }
    ensures sound { IfSome result (λ keys. AreKeys (Some keys)) }
{
    let secret = Secret::of(bytes);
    if !secret.fits(kind) {
        return None;
    }
    Some(Keys::one(kind, Key { id, secret }))
}

/// The keys, of which there may be none, or None where a value is outside its range.
fn keys(f: &Fields) -> Option<Option<Keys>>
    ensures value { result ≡ keys_from_c f.now }
    ensures sound { IfSome result AreKeys }
{
    if f.auth == 0 {
        return Some(None);
    }
    if f.auth > 5 || f.key_id > 255 || f.key_len > 20 {
        return None;
    }
    match one_key(
        kind_by(f.auth),
        f.key_id as u8,
        &f.key[..f.key_len as usize],
    ) {
        Some(keys) => Some(Some(keys)),
        None => None,
    }
}

/// Whether this is an interval that may be configured.
pub(crate) fn interval(n: u32) -> bool
    ensures value { result ≡ is_interval n }
    ensures range { result ≡ true → (10000 ≤ n) × (n ≤ 60000000) }
{
    is_interval(u64::from(n))
}

/// Whether the discriminator and the interface are in their ranges.
fn has_name(f: &Fields) -> bool
    ensures value { result ≡ has_name f.now }
    ensures range { result ≡ true → HasName f.now }
{
    f.discr >= 1 && f.iface < 65_536
}

/// Whether the interval to send at and the Detect Mult are in their ranges.
fn has_sending(f: &Fields) -> bool
    ensures value { result ≡ has_sending f.now }
    ensures range { result ≡ true → HasSending f.now }
{
    interval(f.tx) && f.mult >= 1 && f.mult < 256
}

/// Whether the Echo function may have this interval.
fn may_echo(role: Role, every: u32) -> bool
    ensures { result ≡ is_echo_interval role every }
{
    match role {
        Role::Single => every == 0 || interval(every),
        Role::Multi => every == 0,
    }
}

/// Whether what a point-to-point session has besides is in its ranges.
fn paired(role: Role, f: &Fields) -> bool
    ensures value { result ≡ is_paired role f.now }
    ensures range { result ≡ true → IsPaired role f.now }
{
    f.active < 2 && interval(f.rx) && may_echo(role, f.echo)
}

/// A point-to-point session of values in their ranges.
fn point_by_fields(
    role: Role,
    f: Fields,
    local: Addr,
    remote: Addr,
    keys: Option<Keys>,
) -> SessionConfig
    requires named { HasName f }
    requires sending { HasSending f }
    requires paired { IsPaired role f }
    requires local { IsAddress local }
    requires remote { IsAddress remote }
    requires keys { AreKeys keys }
    ensures value { result ≡ fields.point_by_fields role f local remote keys }
    ensures sound { IsInRanges result }
{
    SessionConfig::PointToPoint(Config {
        discr: f.discr,
        role,
        iface: f.iface,
        local,
        remote,
        active: f.active == 1,
        tx: f.tx,
        rx: f.rx,
        mult: f.mult as u8,
        echo: f.echo,
        seed: f.seed,
        keys,
    })
}

/// A point-to-point session.
fn pair(role: Role, f: &Fields) -> Option<SessionConfig>
    ensures value { result
        ≡ fields.point_by role f.now (addr_of f.now.local) (addr_of f.now.remote) (keys_from_c f.now) }
    ensures sound { IfSome result IsInRanges }
{
    let (Some(local), Some(remote), Some(keys)) = (
        read_address(&f.local),
        read_address(&f.remote),
        keys(f),
    ) else {
        return None;
    };
    if !(has_name(f) && has_sending(f) && paired(role, f)) {
        return None;
    }
    Some(point_by_fields(role, *f, local, remote, keys))
}

/// An initiator of values in their ranges.
fn initiator_by_fields(f: Fields, local: Addr, remote: Addr) -> SessionConfig
    requires named { HasName f }
    requires sending { HasSending f }
    requires other { 0 < f.other }
    requires local { IsAddress local }
    requires remote { IsAddress remote }
    ensures value { result ≡ fields.initiator_by_fields f local remote }
    ensures sound { IsInRanges result }
{
    SessionConfig::Initiator(InitiatorConfig {
        discr: f.discr,
        target: f.other,
        iface: f.iface,
        local,
        remote,
        tx: f.tx,
        mult: f.mult as u8,
        seed: f.seed,
    })
}

/// An initiator.
fn initiator(f: &Fields) -> Option<SessionConfig>
    ensures value { result ≡ fields.initiator_by f.now (addr_of f.now.local) (addr_of f.now.remote) }
    ensures sound { IfSome result IsInRanges }
{
    let (Some(local), Some(remote)) = (read_address(&f.local), read_address(&f.remote)) else {
        return None;
    };
    if !(has_name(f) && has_sending(f) && f.other >= 1) {
        return None;
    }
    Some(initiator_by_fields(*f, local, remote))
}

/// A head of values in their ranges.
fn head_with(f: Fields, local: Addr, group: Addr) -> SessionConfig
    requires named { HasName f }
    requires sending { HasSending f }
    requires local { IsAddress local }
    requires group { IsAddress group }
    ensures value { result ≡ fields.head_with f local group }
    ensures sound { IsInRanges result }
{
    SessionConfig::Head(HeadConfig {
        discr: f.discr,
        iface: f.iface,
        local,
        group,
        tx: f.tx,
        mult: f.mult as u8,
        seed: f.seed,
    })
}

/// A head.
fn head(f: &Fields) -> Option<SessionConfig>
    ensures value { result ≡ fields.head_by f.now (addr_of f.now.local) (addr_of f.now.remote) }
    ensures sound { IfSome result IsInRanges }
{
    let (Some(local), Some(group)) = (read_address(&f.local), read_address(&f.remote)) else {
        return None;
    };
    if !(has_name(f) && has_sending(f)) {
        return None;
    }
    Some(head_with(*f, local, group))
}

/// A tail of values in their ranges.
fn tail_with(f: Fields, group: Addr, source: Addr) -> SessionConfig
    requires named { HasName f }
    requires other { 0 < f.other }
    requires group { IsAddress group }
    requires source { IsAddress source }
    ensures value { result ≡ fields.tail_with f group source }
    ensures sound { IsInRanges result }
{
    SessionConfig::Tail(TailConfig {
        discr: f.discr,
        head: f.other,
        iface: f.iface,
        group,
        source,
    })
}

/// A tail.
fn tail(f: &Fields) -> Option<SessionConfig>
    ensures value { result ≡ fields.tail_by f.now (addr_of f.now.local) (addr_of f.now.remote) }
    ensures sound { IfSome result IsInRanges }
{
    let (Some(group), Some(source)) = (read_address(&f.local), read_address(&f.remote)) else {
        return None;
    };
    if !(has_name(f) && f.other >= 1) {
        return None;
    }
    Some(tail_with(*f, group, source))
}

/// The session of the fields, of a kind without authentication.
fn unkeyed_of(f: &Fields) -> Option<SessionConfig>
    ensures value { result ≡ fields.unkeyed_of f.now }
    ensures sound { IfSome result IsInRanges }
{
    match f.kind {
        3 => initiator(f),
        4 => head(f),
        5 => tail(f),
        _ => None,
    }
}

/// The same, or None where the fields ask for authentication.
fn unkeyed(f: &Fields) -> Option<SessionConfig>
    ensures value { result ≡ fields.unkeyed_by f.now }
    ensures sound { IfSome result IsInRanges }
{
    if f.auth != 0 {
        return None;
    }
    unkeyed_of(f)
}

/// The session of the fields, or None where a value that its kind uses is outside its range, or it asks for authentication that its
/// kind doesn't have.
pub(crate) fn config(f: &Fields) -> Option<SessionConfig>
    ensures value { result ≡ config_of f.now }
    ensures sound { IfSome result IsInRanges }
{
    match f.kind {
        1 => pair(Role::Single, f),
        2 => pair(Role::Multi, f),
        _ => unkeyed(f),
    }
}
