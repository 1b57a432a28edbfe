//! Copies of a query and its filters.
ghost use Rattle.std.specs.Prelude.{◌≡◌, IfOk};
ghost use Rattle.cql_syntax.specs.Trees.{any, chain, comment, direction, if_, line, name, pair, played, sort, square, sum_of, tagged, transform, unary};
ghost use Rattle.cql_syntax.specs.TreeOf.{filter_tree, form_tree, line_tree, played_tree, written_tree, body_tree, filters_tree, terms_tree, parts_tree, query_tree};

use crate::leaves::{Chain, Field, Kind, Pair, Unary, Way};
use crate::tree::{
    Body, Constituent, Constituents, Filter, Filters, Form, Line, Played, Query, Term, Terms,
};
use cq_common::{Bytes, NoMemory};
use cq_symmetry::Family;
use std::alloc::Global;

impl Query {
    /// Returns a copy of this query, in memory of the allocator that this one keeps.
    ///
    /// # Errors
    ///
    /// Returns `NoMemory` if memory runs out.
    pub fn copy(&self) -> Result<Query, NoMemory>
        ensures { IfOk result (λ q. query_tree q ≡ query_tree self.now) }
    {
        let alloc = self.items.allocator();
        Ok(Query {
            variations: self.variations,
            match_at: self.match_at,
            match_text: Bytes::from_slice(alloc, self.match_text.as_slice())?,
            items: self.items.copy(alloc)?,
        })
    }
}

impl Filter {
    /// Returns a copy of this filter.
    ///
    /// # Errors
    ///
    /// Returns `NoMemory` if memory runs out.
    #[cycle(copy)]
    pub fn copy(&self, alloc: Global) -> Result<Filter, NoMemory>
        ensures { IfOk result (λ f. filter_tree f ≡ filter_tree self.now) }
    {
        Ok(Filter {
            at: self.at,
            form: self.form.copy(alloc)?,
        })
    }

    #[cycle(copy)]
    fn boxed(&self, alloc: Global) -> Result<Box<Filter>, NoMemory>
        ensures { IfOk result (λ f. filter_tree f.value ≡ filter_tree self.now) }
    {
        let filter = self.copy(alloc)?;
        Ok(Box::new(alloc, filter)?)
    }

    // A pair whose second part is a copy of this filter.
    #[cycle(copy)]
    fn copy_second(&self, word: Pair, first: Box<Filter>, alloc: Global) -> Result<Form, NoMemory>
        ensures { IfOk result (λ f. form_tree f ≡ pair word (filter_tree first.value) (filter_tree self.now)) }
    {
        Ok(Form::Pair(word, first, self.boxed(alloc)?))
    }

    // An `if` whose `else` branch is a copy of this filter.
    #[cycle(copy)]
    fn copy_otherwise(
        &self,
        condition: Box<Filter>,
        then: Box<Filter>,
        alloc: Global,
    ) -> Result<Form, NoMemory>
        ensures { IfOk result (λ f. form_tree f
            ≡ if_ (filter_tree condition.value) (filter_tree then.value) (filter_tree self.now)) }
    {
        Ok(Form::If(condition, then, self.boxed(alloc)?))
    }

    // A `square` whose condition is a copy of this filter.
    #[cycle(copy)]
    fn copy_condition(
        &self,
        every: bool,
        text: Bytes,
        squares: Box<Filter>,
        alloc: Global,
    ) -> Result<Form, NoMemory>
        ensures { IfOk result (λ f. form_tree f ≡ square every text (filter_tree squares.value) (filter_tree self.now)) }
    {
        Ok(Form::Square(every, text, squares, self.boxed(alloc)?))
    }
}

impl Form {
    #[cycle(copy)]
    fn copy(&self, alloc: Global) -> Result<Form, NoMemory>
        ensures { IfOk result (λ f. form_tree f ≡ form_tree self.now) }
    {
        match self {
            Form::Squares(designator) => Ok(Form::Squares(*designator)),
            Form::Number(number) => Ok(Form::Number(*number)),
            Form::Name(text) => copy_name(text, alloc),
            Form::Plain(word) => Ok(Form::Plain(*word)),
            Form::Tagged(field, text) => copy_tagged(*field, text, alloc),
            Form::Outcome(outcome) => Ok(Form::Outcome(*outcome)),
            Form::Elo(of) => Ok(Form::Elo(*of)),
            Form::Unary(word, a) => Form::copy_unary(*word, a, alloc),
            Form::Steps(way, m, n, a) => Form::copy_steps(*way, *m, *n, a, alloc),
            Form::Chain(word, parts) => Form::copy_chain(*word, parts, alloc),
            Form::Sum(terms) => Form::copy_sum(terms, alloc),
            Form::Pair(word, a, b) => {
                let first = a.boxed(alloc)?;
                b.copy_second(*word, first, alloc)
            }
            Form::If(a, b, c) => {
                let condition = a.boxed(alloc)?;
                let then = b.boxed(alloc)?;
                c.copy_otherwise(condition, then, alloc)
            }
            Form::Square(every, name, a, b) => {
                let name = Bytes::from_slice(alloc, name.as_slice())?;
                let squares = a.boxed(alloc)?;
                b.copy_condition(*every, name, squares, alloc)
            }
            Form::Line(line) => line.copy(alloc),
            Form::Played(played) => played.copy(alloc),
            Form::Transform(family, a) => Form::copy_transform(*family, a, alloc),
            Form::Sort(least, text, a) => Form::copy_sort(*least, text, a, alloc),
            Form::Comment(text) => copy_comment(text, alloc),
            Form::Any(kind, parts) => Form::copy_any(*kind, parts, alloc),
        }
    }

    #[cycle(copy)]
    fn copy_unary(word: Unary, a: &Filter, alloc: Global) -> Result<Form, NoMemory>
        ensures { IfOk result (λ f. form_tree f ≡ unary word (filter_tree a.now)) }
    {
        Ok(Form::Unary(word, a.boxed(alloc)?))
    }

    #[cycle(copy)]
    fn copy_steps(way: Way, m: u32, n: u32, a: &Filter, alloc: Global) -> Result<Form, NoMemory>
        ensures { IfOk result (λ f. form_tree f ≡ direction way m n (filter_tree a.now)) }
    {
        Ok(Form::Steps(way, m, n, a.boxed(alloc)?))
    }

    #[cycle(copy)]
    fn copy_chain(word: Chain, parts: &Filters, alloc: Global) -> Result<Form, NoMemory>
        ensures { IfOk result (λ f. form_tree f ≡ chain word (filters_tree parts.now)) }
    {
        Ok(Form::Chain(word, parts.copy(alloc)?))
    }

    #[cycle(copy)]
    fn copy_any(kind: Kind, parts: &Filters, alloc: Global) -> Result<Form, NoMemory>
        ensures { IfOk result (λ f. form_tree f ≡ any kind (filters_tree parts.now)) }
    {
        Ok(Form::Any(kind, parts.copy(alloc)?))
    }

    #[cycle(copy)]
    fn copy_sum(terms: &Terms, alloc: Global) -> Result<Form, NoMemory>
        ensures { IfOk result (λ f. form_tree f ≡ sum_of (terms_tree terms.now)) }
    {
        Ok(Form::Sum(terms.copy(alloc)?))
    }

    #[cycle(copy)]
    fn copy_transform(family: Family, a: &Filter, alloc: Global) -> Result<Form, NoMemory>
        ensures { IfOk result (λ f. form_tree f ≡ transform family (filter_tree a.now)) }
    {
        Ok(Form::Transform(family, a.boxed(alloc)?))
    }

    #[cycle(copy)]
    fn copy_sort(least: bool, text: &Bytes, a: &Filter, alloc: Global) -> Result<Form, NoMemory>
        ensures { IfOk result (λ f. form_tree f ≡ sort least text.now (filter_tree a.now)) }
    {
        let text = Bytes::from_slice(alloc, text.as_slice())?;
        Ok(Form::Sort(least, text, a.boxed(alloc)?))
    }
}

fn copy_name(text: &Bytes, alloc: Global) -> Result<Form, NoMemory>
    ensures { IfOk result (λ f. form_tree f ≡ name text.now) }
{
    Ok(Form::Name(Bytes::from_slice(alloc, text.as_slice())?))
}

fn copy_tagged(field: Field, text: &Bytes, alloc: Global) -> Result<Form, NoMemory>
    ensures { IfOk result (λ f. form_tree f ≡ tagged field text.now) }
{
    Ok(Form::Tagged(field, Bytes::from_slice(alloc, text.as_slice())?))
}

fn copy_comment(text: &Bytes, alloc: Global) -> Result<Form, NoMemory>
    ensures { IfOk result (λ f. form_tree f ≡ comment text.now) }
{
    Ok(Form::Comment(Bytes::from_slice(alloc, text.as_slice())?))
}

impl Line {
    #[cycle(copy)]
    fn copy(&self, alloc: Global) -> Result<Form, NoMemory>
        ensures { IfOk result (λ f. form_tree f ≡ line (line_tree self.now)) }
    {
        Ok(Form::Line(Line {
            back: self.back,
            primary: self.primary,
            extent: self.extent,
            parts: self.parts.copy(alloc)?,
        }))
    }
}

impl Played {
    #[cycle(copy)]
    fn copy_written(
        written: &Option<Box<Filter>>,
        alloc: Global,
    ) -> Result<Option<Box<Filter>>, NoMemory>
        ensures { IfOk result (λ copied. written_tree copied ≡ written_tree written.now) }
    {
        match written {
            Some(filter) => Ok(Some(filter.boxed(alloc)?)),
            None => Ok(None),
        }
    }

    #[cycle(copy)]
    fn copy(&self, alloc: Global) -> Result<Form, NoMemory>
        ensures { IfOk result (λ f. form_tree f ≡ played (played_tree self.now)) }
    {
        Ok(Form::Played(Played {
            origin: Played::copy_written(&self.origin, alloc)?,
            goal: Played::copy_written(&self.goal, alloc)?,
            taken: Played::copy_written(&self.taken, alloc)?,
            promoted: Played::copy_written(&self.promoted, alloc)?,
        }))
    }
}

impl Body {
    #[cycle(copy)]
    fn copy(&self, alloc: Global) -> Result<Body, NoMemory>
        ensures { IfOk result (λ b. body_tree b ≡ body_tree self.now) }
    {
        Ok(match self {
            Body::Atom(filter) => Body::Atom(filter.boxed(alloc)?),
            Body::Group(parts) => Body::Group(parts.copy(alloc)?),
        })
    }
}

impl Filters {
    #[cycle(copy)]
    fn copy(&self, alloc: Global) -> Result<Filters, NoMemory>
        ensures { IfOk result (λ fs. filters_tree fs ≡ filters_tree self.now) }
    {
        let mut copied = Filters::new(alloc);
        for filter in self.as_slice() {
            copied.push(filter.copy(alloc)?)?;
        }
        Ok(copied)
    }
}

impl Terms {
    #[cycle(copy)]
    fn copy(&self, alloc: Global) -> Result<Terms, NoMemory>
        ensures { IfOk result (λ ts. terms_tree ts ≡ terms_tree self.now) }
    {
        let mut copied = Terms::new(alloc);
        for term in self.as_slice() {
            copied.push(Term {
                minus: term.minus,
                filter: term.filter.copy(alloc)?,
            })?;
        }
        Ok(copied)
    }
}

impl Constituents {
    #[cycle(copy)]
    fn copy(&self, alloc: Global) -> Result<Constituents, NoMemory>
        ensures { IfOk result (λ cs. parts_tree cs ≡ parts_tree self.now) }
    {
        let mut copied = Constituents::new(alloc);
        for part in self.as_slice() {
            copied.push(Constituent {
                body: part.body.copy(alloc)?,
                mark: part.mark,
            })?;
        }
        Ok(copied)
    }
}
