//! The names of a host's types at the AT Protocol's two zero bits a layer. That these functions compile is the test: each
//! takes a type with the number written out, and gives it under its name.

use cid::Sha256;
use closing::{AtprotoClosed, AtprotoUneven, Closed, Uneven};
use host::{
    AtprotoHost, AtprotoOpened, AtprotoReceipt, AtprotoWriter, Host, Opened, Receipt, Writer,
};

pub(crate) fn host_of_two_bits(host: &Host<Sha256, 2>) -> &AtprotoHost<Sha256> {
    host
}

pub(crate) fn opened_of_two_bits(opened: &Opened<Sha256, 2>) -> &AtprotoOpened<Sha256> {
    opened
}

pub(crate) fn writer_of_two_bits<'w, 'h>(
    writer: &'w Writer<'h, Sha256, 2>,
) -> &'w AtprotoWriter<'h, Sha256> {
    writer
}

pub(crate) fn receipt_of_two_bits(receipt: &Receipt<Sha256, 2>) -> &AtprotoReceipt<Sha256> {
    receipt
}

pub(crate) fn closed_of_two_bits(closed: &Closed<Sha256, 2>) -> &AtprotoClosed<Sha256> {
    closed
}

pub(crate) fn uneven_of_two_bits(uneven: &Uneven<Sha256, 2>) -> &AtprotoUneven<Sha256> {
    uneven
}
