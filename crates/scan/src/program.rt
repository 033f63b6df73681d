// A program as a scan sees it.
use crate::masks::Masks;

#[derive(Drop)]
pub(crate) struct Program<'a> {
    pub code: &'a [u8],
    pub masks: Masks<'a>,
}
