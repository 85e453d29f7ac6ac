//! Laws of pages in lanes. Each function does nothing: its contract is the law, and a caller calls it where its proof
//! needs the law.
ghost use Rattle.store_trait.specs.Laws.{PagesHavePlaces, PagesLieApart, ToldPages, PagesAppend};

/// A page lies at its number times the page size.
pub fn pages_have_places()
    ensures { PagesHavePlaces }
{}

/// Two pages of one size lie apart.
pub fn pages_lie_apart()
    ensures { PagesLieApart }
{}

/// What was read of a page that is told is what is told, and what was written to it is told of it then.
pub fn told_pages()
    ensures { ToldPages }
{}

/// Appending a page leaves the earlier ones.
pub fn pages_append()
    ensures { PagesAppend }
{}
