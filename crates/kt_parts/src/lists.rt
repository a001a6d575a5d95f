//! Reading the lists among the parts of a phrase.
ghost use Rattle.std.specs.Prelude.{IfOk};
ghost use Rattle.kt_tree.specs.Parts as spec;
ghost use Rattle.kt_tree.specs.Parts.{Gives, times, many, maybe_many};

use crate::queue::Queue;
use kt_tree::Tokens;
use kt_tree::ast::{
    Catch, ClassParameter, Condition, Effect, Expr, LambdaParameter, Member, Modifier, Parameter,
    Stmt, StringPart, Supertype, TypeRef, WhenBranch,
};
use kt_tree::grammar::Built;
use sqlite_items::Items;
use std::alloc::{AllocError, Global};

impl Queue<Built> {
    #[tactic(auto, using(crate::proofs::Times::more, crate::proofs::Times::all))]
    fn some_exprs(&mut self, alloc: Global, count: usize) -> Result<Items<Expr>, AllocError>
        ensures { IfOk result (λ xs. Gives (times count spec.expr) self.old xs self.new) }
    {
        let mut items = Items::new(alloc);
        let mut left = count;
        'items: while left > 0 {
            items.push(self.expr())?;
            left -= 1;
        }
        Ok(items)
    }

    pub fn exprs(&mut self, alloc: Global) -> Result<Items<Expr>, AllocError>
        ensures { IfOk result (λ xs. Gives (many spec.expr) self.old xs self.new) }
    {
        let count = self.count();
        self.some_exprs(alloc, count)
    }

    #[tactic(auto, using(crate::proofs::Times::more, crate::proofs::Times::all))]
    fn some_stmts(&mut self, alloc: Global, count: usize) -> Result<Items<Stmt>, AllocError>
        ensures { IfOk result (λ xs. Gives (times count spec.stmt) self.old xs self.new) }
    {
        let mut items = Items::new(alloc);
        let mut left = count;
        'items: while left > 0 {
            items.push(self.stmt())?;
            left -= 1;
        }
        Ok(items)
    }

    pub fn stmts(&mut self, alloc: Global) -> Result<Items<Stmt>, AllocError>
        ensures { IfOk result (λ xs. Gives (many spec.stmt) self.old xs self.new) }
    {
        let count = self.count();
        self.some_stmts(alloc, count)
    }

    #[tactic(auto, using(crate::proofs::Times::more, crate::proofs::Times::all))]
    fn some_pieces(
        &mut self,
        alloc: Global,
        tokens: &Tokens,
        count: usize,
    ) -> Result<Items<StringPart>, AllocError>
        ensures { IfOk result (λ xs. Gives (times count (spec.string_piece tokens.now)) self.old xs self.new) }
    {
        let mut items = Items::new(alloc);
        let mut left = count;
        'items: while left > 0 {
            let piece = self.string_piece(alloc, tokens)?;
            items.push(piece)?;
            left -= 1;
        }
        Ok(items)
    }

    pub fn pieces(
        &mut self,
        alloc: Global,
        tokens: &Tokens,
    ) -> Result<Items<StringPart>, AllocError>
        ensures { IfOk result (λ xs. Gives (many (spec.string_piece tokens.now)) self.old xs self.new) }
    {
        let count = self.count();
        self.some_pieces(alloc, tokens, count)
    }

    #[tactic(auto, using(crate::proofs::Times::more, crate::proofs::Times::all))]
    fn some_lambda_parameters(
        &mut self,
        alloc: Global,
        count: usize,
    ) -> Result<Items<LambdaParameter>, AllocError>
        ensures { IfOk result (λ xs. Gives (times count spec.lambda_parameter) self.old xs self.new) }
    {
        let mut items = Items::new(alloc);
        let mut left = count;
        'items: while left > 0 {
            items.push(self.lambda_parameter())?;
            left -= 1;
        }
        Ok(items)
    }

    pub fn lambda_parameters(&mut self, alloc: Global) -> Result<Items<LambdaParameter>, AllocError>
        ensures { IfOk result (λ xs. Gives (many spec.lambda_parameter) self.old xs self.new) }
    {
        let count = self.count();
        self.some_lambda_parameters(alloc, count)
    }

    #[tactic(auto, using(crate::proofs::Times::more, crate::proofs::Times::all))]
    fn some_when_branches(
        &mut self,
        alloc: Global,
        count: usize,
    ) -> Result<Items<WhenBranch>, AllocError>
        ensures { IfOk result (λ xs. Gives (times count spec.when_branch) self.old xs self.new) }
    {
        let mut items = Items::new(alloc);
        let mut left = count;
        'items: while left > 0 {
            items.push(self.when_branch())?;
            left -= 1;
        }
        Ok(items)
    }

    pub fn when_branches(&mut self, alloc: Global) -> Result<Items<WhenBranch>, AllocError>
        ensures { IfOk result (λ xs. Gives (many spec.when_branch) self.old xs self.new) }
    {
        let count = self.count();
        self.some_when_branches(alloc, count)
    }

    #[tactic(auto, using(crate::proofs::Times::more, crate::proofs::Times::all))]
    fn some_conditions(
        &mut self,
        alloc: Global,
        count: usize,
    ) -> Result<Items<Condition>, AllocError>
        ensures { IfOk result (λ xs. Gives (times count spec.condition) self.old xs self.new) }
    {
        let mut items = Items::new(alloc);
        let mut left = count;
        'items: while left > 0 {
            items.push(self.condition())?;
            left -= 1;
        }
        Ok(items)
    }

    pub fn conditions(&mut self, alloc: Global) -> Result<Items<Condition>, AllocError>
        ensures { IfOk result (λ xs. Gives (many spec.condition) self.old xs self.new) }
    {
        let count = self.count();
        self.some_conditions(alloc, count)
    }

    #[tactic(auto, using(crate::proofs::Times::more, crate::proofs::Times::all))]
    fn some_catches(&mut self, alloc: Global, count: usize) -> Result<Items<Catch>, AllocError>
        ensures { IfOk result (λ xs. Gives (times count spec.catch) self.old xs self.new) }
    {
        let mut items = Items::new(alloc);
        let mut left = count;
        'items: while left > 0 {
            items.push(self.catch(alloc))?;
            left -= 1;
        }
        Ok(items)
    }

    pub fn catches(&mut self, alloc: Global) -> Result<Items<Catch>, AllocError>
        ensures { IfOk result (λ xs. Gives (many spec.catch) self.old xs self.new) }
    {
        let count = self.count();
        self.some_catches(alloc, count)
    }

    #[tactic(auto, using(crate::proofs::Times::more, crate::proofs::Times::all))]
    fn some_modifiers(
        &mut self,
        alloc: Global,
        tokens: &Tokens,
        count: usize,
    ) -> Result<Items<Modifier>, AllocError>
        ensures { IfOk result (λ xs. Gives (times count (spec.modifier tokens.now)) self.old xs self.new) }
    {
        let mut items = Items::new(alloc);
        let mut left = count;
        'items: while left > 0 {
            items.push(self.modifier(tokens))?;
            left -= 1;
        }
        Ok(items)
    }

    pub fn modifiers(
        &mut self,
        alloc: Global,
        tokens: &Tokens,
    ) -> Result<Items<Modifier>, AllocError>
        ensures { IfOk result (λ xs. Gives (many (spec.modifier tokens.now)) self.old xs self.new) }
    {
        let count = self.count();
        self.some_modifiers(alloc, tokens, count)
    }

    #[tactic(auto, using(crate::proofs::Times::more, crate::proofs::Times::all))]
    fn some_parameters(
        &mut self,
        alloc: Global,
        count: usize,
    ) -> Result<Items<Parameter>, AllocError>
        ensures { IfOk result (λ xs. Gives (times count spec.parameter) self.old xs self.new) }
    {
        let mut items = Items::new(alloc);
        let mut left = count;
        'items: while left > 0 {
            items.push(self.parameter())?;
            left -= 1;
        }
        Ok(items)
    }

    pub fn parameters(&mut self, alloc: Global) -> Result<Items<Parameter>, AllocError>
        ensures { IfOk result (λ xs. Gives (many spec.parameter) self.old xs self.new) }
    {
        let count = self.count();
        self.some_parameters(alloc, count)
    }

    #[tactic(auto, using(crate::proofs::Times::more, crate::proofs::Times::all))]
    fn some_types(&mut self, alloc: Global, count: usize) -> Result<Items<TypeRef>, AllocError>
        ensures { IfOk result (λ xs. Gives (times count spec.written) self.old xs self.new) }
    {
        let mut items = Items::new(alloc);
        let mut left = count;
        'items: while left > 0 {
            items.push(self.written())?;
            left -= 1;
        }
        Ok(items)
    }

    pub fn types(&mut self, alloc: Global) -> Result<Items<TypeRef>, AllocError>
        ensures { IfOk result (λ xs. Gives (many spec.written) self.old xs self.new) }
    {
        let count = self.count();
        self.some_types(alloc, count)
    }

    #[tactic(auto, using(crate::proofs::Times::more, crate::proofs::Times::all))]
    fn some_effects(&mut self, alloc: Global, count: usize) -> Result<Items<Effect>, AllocError>
        ensures { IfOk result (λ xs. Gives (times count spec.effect) self.old xs self.new) }
    {
        let mut items = Items::new(alloc);
        let mut left = count;
        'items: while left > 0 {
            items.push(self.effect())?;
            left -= 1;
        }
        Ok(items)
    }

    pub fn effects(&mut self, alloc: Global) -> Result<Items<Effect>, AllocError>
        ensures { IfOk result (λ xs. Gives (many spec.effect) self.old xs self.new) }
    {
        let count = self.count();
        self.some_effects(alloc, count)
    }

    #[tactic(auto, using(crate::proofs::Times::more, crate::proofs::Times::all))]
    fn some_class_parameters(
        &mut self,
        alloc: Global,
        count: usize,
    ) -> Result<Items<ClassParameter>, AllocError>
        ensures { IfOk result (λ xs. Gives (times count spec.class_parameter) self.old xs self.new) }
    {
        let mut items = Items::new(alloc);
        let mut left = count;
        'items: while left > 0 {
            items.push(self.class_parameter(alloc))?;
            left -= 1;
        }
        Ok(items)
    }

    pub fn class_parameters(&mut self, alloc: Global) -> Result<Items<ClassParameter>, AllocError>
        ensures { IfOk result (λ xs. Gives (many spec.class_parameter) self.old xs self.new) }
    {
        let count = self.count();
        self.some_class_parameters(alloc, count)
    }

    #[tactic(auto, using(crate::proofs::Times::more, crate::proofs::Times::all))]
    fn some_supertypes(
        &mut self,
        alloc: Global,
        count: usize,
    ) -> Result<Items<Supertype>, AllocError>
        ensures { IfOk result (λ xs. Gives (times count spec.supertype) self.old xs self.new) }
    {
        let mut items = Items::new(alloc);
        let mut left = count;
        'items: while left > 0 {
            items.push(self.supertype())?;
            left -= 1;
        }
        Ok(items)
    }

    pub fn supertypes(&mut self, alloc: Global) -> Result<Items<Supertype>, AllocError>
        ensures { IfOk result (λ xs. Gives (many spec.supertype) self.old xs self.new) }
    {
        let count = self.count();
        self.some_supertypes(alloc, count)
    }

    #[tactic(auto, using(crate::proofs::Times::more, crate::proofs::Times::all))]
    fn some_members(&mut self, alloc: Global, count: usize) -> Result<Items<Member>, AllocError>
        ensures { IfOk result (λ xs. Gives (times count spec.member) self.old xs self.new) }
    {
        let mut items = Items::new(alloc);
        let mut left = count;
        'items: while left > 0 {
            items.push(self.member(alloc))?;
            left -= 1;
        }
        Ok(items)
    }

    pub fn members(&mut self, alloc: Global) -> Result<Items<Member>, AllocError>
        ensures { IfOk result (λ xs. Gives (many spec.member) self.old xs self.new) }
    {
        let count = self.count();
        self.some_members(alloc, count)
    }

    pub fn maybe_exprs(&mut self, alloc: Global) -> Result<Option<Items<Expr>>, AllocError>
        ensures { IfOk result (λ xs. Gives (maybe_many spec.expr) self.old xs self.new) }
    {
        match self.maybe_count() {
            Some(count) => Ok(Some(self.some_exprs(alloc, count)?)),
            None => Ok(None),
        }
    }

    pub fn maybe_class_parameters(
        &mut self,
        alloc: Global,
    ) -> Result<Option<Items<ClassParameter>>, AllocError>
        ensures { IfOk result (λ xs. Gives (maybe_many spec.class_parameter) self.old xs self.new) }
    {
        match self.maybe_count() {
            Some(count) => Ok(Some(self.some_class_parameters(alloc, count)?)),
            None => Ok(None),
        }
    }

    pub fn maybe_members(&mut self, alloc: Global) -> Result<Option<Items<Member>>, AllocError>
        ensures { IfOk result (λ xs. Gives (maybe_many spec.member) self.old xs self.new) }
    {
        match self.maybe_count() {
            Some(count) => Ok(Some(self.some_members(alloc, count)?)),
            None => Ok(None),
        }
    }
}
