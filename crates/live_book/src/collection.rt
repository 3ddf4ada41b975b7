//! A live collection.

ghost use Rattle.std.specs.Prelude.{◌≡◌, IfOk};
ghost use Rattle.node_limits.specs.Laws.{IsBounded};
ghost use Rattle.live_book.specs.Collection.{collection_of, new_within};
ghost use Rattle.live_book.specs.Eager.{IsEager};

use crate::quota::{Quota, quota_for};
use negotiation_inputs::Platform;
use node_limits::Limits;
use node_names::Names;
use std::alloc::{AllocError, Global};
use std::marker::Model;
use sysmem_alloc::Book;

/// A book, in which no action was made while a domain waited for a decision, what is counted for the
/// limits that a host gave, and the names that nodes were given.
pub struct Collection {
    pub(crate) book: Book,
    pub(crate) quota: Option<Quota>,
    pub(crate) names: Names,
}

impl Drop for Collection {
    fn drop(self) {
        let Collection {
            book: _,
            quota: _,
            names: _,
        } = self;
    }
}

impl Model for Collection {
    ghost use Rattle.std.specs.Prelude.{IfSome};
    ghost use Rattle.live_book.specs.Collection.{CollectionFacts};
    ghost use Rattle.live_book.specs.Eager.{IsEager};
    ghost use Rattle.live_book.specs.Quota.{IsQuotaOf, limits_of};

    ghost Value = { CollectionFacts };

    ghost view = { λ c. record {
      book = c.book;
      limits = limits_of c.quota;
      names = c.names;
    } };

    ghost invariant = { λ c. IsEager c.book.history
        × IfSome c.quota (IsQuotaOf c.book.state.tree.nodes) };
}

impl Collection {
    /// A new collection of a root token, without names, that keeps to these limits. It reserves all
    /// the memory that actions and decisions need. `AllocError` where memory is refused.
    pub fn new(alloc: Global, platform: Platform, limits: Limits) -> Result<Collection, AllocError>
        ensures { IfOk result (λ collection. collection ≡ new_within limits platform) }
    {
        let book = Book::new(alloc, platform)?;
        let quota = quota_for(limits);
        let names = Names::new(alloc);
        Ok(Collection { book, quota, names })
    }

    /// A collection of a book, without limits and names.
    pub fn of(alloc: Global, book: Book) -> Collection
        requires { IsEager book.history }
        ensures { result ≡ collection_of book }
    {
        let names = Names::new(alloc);
        Collection {
            book,
            quota: None,
            names,
        }
    }

    /// The book. No child of the root ever has more nodes below it than the limits allow.
    pub fn book(&self) -> &Book
        ensures book { result.now ≡ self.now.book }
        ensures eager { IsEager self.now.book.history }
        ensures bounded { IsBounded self.now.limits self.now.book.state.tree.nodes }
    {
        &self.book
    }

    /// The platform for which it decides.
    pub fn platform(&self) -> &Platform
        ensures { result.now ≡ self.now.book.platform }
    {
        self.book.platform()
    }

    /// The names that nodes were given.
    pub fn names(&self) -> &Names
        ensures { result.now ≡ self.now.names }
    {
        &self.names
    }
}
