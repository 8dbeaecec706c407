// What a host lends to a call: the words of a gate and its plugin list.
#[derive(Clone, Copy)]
pub struct Lending<'a, G, L> {
    pub gate: &'a G,
    pub list: L,
}
