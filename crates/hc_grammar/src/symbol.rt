/// What a grammar wants next: a token of a kind, in its role; a phrase, named by its head; or no
/// token at all, but a mark for whoever builds a tree or keeps counts.
#[derive(Clone, Copy, Debug)]
pub enum Symbol<K, H, A, B> {
    Token(K, A),
    Head(H),
    Mark(B),
}
