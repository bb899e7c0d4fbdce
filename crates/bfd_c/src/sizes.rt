//! The size of each struct of C that can grow, as this version knows it. A caller's struct begins with the size that it has.
use crate::fields::Fields;
use crate::looking::SessionState;
use crate::opening::Complaint;
use crate::structs::{Answered, Output};
use crate::wire::Packet;
use std::mem::size_of;

pub(crate) const SESSION: u32 = size_of::<Fields>() as u32;

pub(crate) const PACKET: u32 = size_of::<Packet>() as u32;

pub(crate) const ANSWERED: u32 = size_of::<Answered>() as u32;

pub(crate) const SESSION_STATE: u32 = size_of::<SessionState>() as u32;

pub(crate) const OUTPUT: u32 = size_of::<Output>() as u32;

pub(crate) const COMPLAINT: u32 = size_of::<Complaint>() as u32;
