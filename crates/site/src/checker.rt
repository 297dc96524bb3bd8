/// What a site checks replies with: the scheme, the digest and its own number. Each check is a method of it.
#[derive(Drop)]
pub(crate) struct Checker<'a, S, D> {
    pub(crate) scheme: &'a S,
    pub(crate) digest: &'a D,
    pub(crate) number: u8,
}
