//! Nonterminals, productions, rows, and the symbols that productions are made of.
use crate::grammar::phrase::Form;
use crate::grammar::terminal::Terminal;

/// The step of the language's growth that is open: rows of later steps are shut.
pub const OPEN: u8 = 3;

/// A part of the grammar with alternatives of its own: each named part, option, repetition, list and choice.
#[derive(Clone, Copy)]
pub enum Nonterminal {
    /// `{';'} {Import {';'}} {Top {';'}} End`
    File,
    /// `{';'}`
    Semicolons,
    /// `{Import {';'}}`
    Imports,
    /// `Id | '*'`
    Imported,
    /// `{Top {';'}}, the first`
    Declarations,
    /// `{Top {';'}}, the others`
    MoreDeclarations,
    /// `{Annot} {Mod} (Class | Interface | Fun)`
    Declaration,
    /// `Class | Interface | Fun`
    Declared,
    /// `{Annot}`
    Annotations,
    /// `"ExperimentalContracts" | "OptIn" '(' "ExperimentalContracts" '::' 'class' ')'`
    AnnotationName,
    /// `{Mod}`
    Modifiers,
    /// `{Mod}, as far as it is read`
    ModifierList,
    /// `'class' Id ['(' List(CParam) ')'] [':' Super {',' Super}] [Body]`
    Class,
    /// `['(' List(CParam) ')']`
    ClassParameters,
    /// `List(CParam)`
    ClassParameterList,
    /// `what follows a CParam in a List`
    ClassParametersMore,
    /// `{Mod} ['val' | 'var'] Id ':' Type`
    ClassParameter,
    /// `['val' | 'var']`
    PropertyKeyword,
    /// `'interface' Id [':' Super {',' Super}] [Body]`
    Interface,
    /// `[':' Super {',' Super}]`
    Supertypes,
    /// `{',' Super}`
    SupertypesMore,
    /// `Id ['(' List(Expr) ')']`
    Supertype,
    /// `['(' List(Expr) ')']`
    SupertypeArguments,
    /// `[Body]`
    ClassBody,
    /// `'{' {';'} {Member {';'}} '}'`
    Body,
    /// `{Member {';'}}`
    Members,
    /// `"init" Block | {Mod} (Fun | Prop)`
    Member,
    /// `Fun | Prop`
    MemberDeclared,
    /// `('val' | 'var') Id [':' Type] ['=' Expr] [Getter]`
    Property,
    /// `["get" '(' ')' [':' Type] ('=' Expr | Block)]`
    Getter,
    /// `'=' Expr | Block`
    GetterBody,
    /// `'fun' Id '(' List(Param) ')' [':' Type] ['=' Expr | FunBlock]`
    Function,
    /// `List(Param)`
    Parameters,
    /// `what follows a Param in a List`
    ParametersMore,
    /// `Id ':' (Type | '(' List(Type) ')' '->' Type)`
    Parameter,
    /// `Type | '(' List(Type) ')' '->' Type`
    ParameterType,
    /// `List(Type)`
    Types,
    /// `what follows a Type in a List`
    TypesMore,
    /// `Id ['?']`
    WrittenType,
    /// `['?']`
    Nullable,
    /// `[':' Type] of a function`
    Result,
    /// `['=' Expr | FunBlock]`
    FunctionBody,
    /// `'{' {';'} [Contract Sep] Stmts '}'`
    FunctionBlock,
    /// `[Contract Sep]`
    ContractPart,
    /// `"contract" '{' {Effect Sep | ';'} '}'`
    Contract,
    /// `{Effect Sep | ';'}`
    Effects,
    /// `"returns" '(' ['true' | 'false' | 'null'] ')' Implies | "returnsNotNull" '(' ')' Implies | "callsInPlace" '(' Id [',' ["InvocationKind" '.'] Id] ')'`
    Effect,
    /// `['true' | 'false' | 'null']`
    ReturnedLiteral,
    /// `[',' ["InvocationKind" '.'] Id]`
    InvocationKind,
    /// `["InvocationKind" '.'] Id`
    InvocationKindName,
    /// `~"implies" (Id | '(' Expr ')')`
    Implies,
    /// `Id | '(' Expr ')'`
    Implied,
    /// `'{' Stmts '}'`
    Block,
    /// `{Stmt Sep | ';'}`
    Statements,
    /// `Local | Loop | Action`
    Statement,
    /// `('val' | 'var') Id [':' Type] ['=' Expr]`
    Local,
    /// `'val' | 'var'`
    LocalKeyword,
    /// `[':' Type]`
    LocalType,
    /// `['=' Expr]`
    LocalValue,
    /// `'while' '(' Expr ')' Inner | 'do' Block 'while' '(' Expr ')' | 'for' '(' Id [':' Type] 'in' Sum ('..' | "until" | "downTo") Sum ')' Inner`
    Loop,
    /// `'..' | "until" | "downTo"`
    Progression,
    /// `Expr [~('=' | '+=' | '-=' | '*=' | '/=' | '%=') Expr | ~'++' | ~'--']`
    Action,
    /// `[~('=' | '+=' | '-=' | '*=' | '/=' | '%=') Expr | ~'++' | ~'--']`
    Assignment,
    /// `Inner, which counts for the depth`
    Inner,
    /// `Block | Loop | Action`
    InnerPart,
    /// `And {'||' And}`
    Expression,
    /// `{'||' And}`
    OrMore,
    /// `Eq {'&&' Eq}`
    Conjunction,
    /// `{'&&' Eq}`
    AndMore,
    /// `Cmp {~('==' | '!=') Cmp}`
    Equality,
    /// `{~('==' | '!=') Cmp}`
    EqualMore,
    /// `Test [~('<' | '>' | '<=' | '>=') Test]`
    Comparison,
    /// `[~('<' | '>' | '<=' | '>=') Test]`
    CompareMore,
    /// `Elvis {~('is' | '!is') Type}`
    Test,
    /// `{~('is' | '!is') Type}`
    TestMore,
    /// `Sum {'?:' Sum}`
    Alternative,
    /// `{'?:' Sum}`
    ElvisMore,
    /// `Prod {~('+' | '-') Prod}`
    Sum,
    /// `{~('+' | '-') Prod}`
    SumMore,
    /// `Cast {~('*' | '/' | '%') Cast}`
    Product,
    /// `{~('*' | '/' | '%') Cast}`
    ProductMore,
    /// `Prefix {('as' | 'as?') Type}`
    Cast,
    /// `{('as' | 'as?') Type}`
    CastMore,
    /// `{'-' | '+' | '!'} Postfix`
    Prefix,
    /// `Primary {~'!!' | ('.' | '?.') Id [~'(' List(Expr) ')']}`
    Postfix,
    /// `{~'!!' | ('.' | '?.') Id [~'(' List(Expr) ')']}`
    PostfixMore,
    /// `[~'(' List(Expr) ')'] behind '.'`
    MemberArguments,
    /// `[~'(' List(Expr) ')'] behind '?.'`
    SafeMemberArguments,
    /// `List(Expr)`
    Arguments,
    /// `what follows an Expr in a List`
    ArgumentsMore,
    /// `Int | 'true' | 'false' | 'null' | 'this' | String | '(' Expr ')' | Id [~'(' List(Expr) ')'] [Lambda] | If | When | Try | Jump`
    Primary,
    /// `[~Expr]`
    Operand,
    /// `[~'(' List(Expr) ')'] [Lambda]`
    NameMore,
    /// `[Lambda]`
    CallLambda,
    /// `{Text | NamePart | '${' Expr '}'}`
    Pieces,
    /// `'{' [LParam {',' LParam} '->'] Stmts '}'`
    Lambda,
    /// `[LParam {',' LParam} '->']`
    LambdaParameters,
    /// `{',' LParam}`
    LambdaParametersMore,
    /// `Id [':' Type]`
    LambdaParameter,
    /// `'if' '(' Expr ')' Inner ['else' Inner]`
    If,
    /// `['else' Inner]`
    ElsePart,
    /// `'when' ['(' ['val' Id [':' Type] '='] Expr ')'] '{' {';'} {Branch Sep {';'}} '}'`
    When,
    /// `['(' ['val' Id [':' Type] '='] Expr ')']`
    Subject,
    /// `['val' Id [':' Type] '=']`
    SubjectName,
    /// `{Branch Sep {';'}}`
    WhenBranches,
    /// `('else' | Cond {',' Cond}) '->' Inner`
    WhenBranch,
    /// `{',' Cond}`
    ConditionsMore,
    /// `('is' | '!is') Type | Expr`
    Condition,
    /// `'try' Block ("finally" Block | Catch {Catch} ["finally" Block])`
    Try,
    /// `"finally" Block | Catch {Catch} ["finally" Block]`
    TryMore,
    /// `{Catch}`
    Catches,
    /// `["finally" Block]`
    FinallyPart,
    /// `"catch" '(' Id ':' Type ')' Block`
    Catch,
}

/// An alternative of a nonterminal that has several.
#[derive(Clone, Copy)]
pub enum Production {
    Semicolon,
    Import,
    ImportedName,
    ImportedAll,
    FirstDeclaration,
    NextDeclaration,
    ClassDeclared,
    InterfaceDeclared,
    FunctionDeclared,
    Annotation,
    ExperimentalContracts,
    OptIn,
    NextModifier,
    ClassParameters,
    NextClassParameter,
    MoreClassParameters,
    PropertyKeyword,
    Supertypes,
    MoreSupertypes,
    SupertypeArguments,
    ClassBody,
    NextMember,
    Initialiser,
    DeclaredMember,
    MemberFunction,
    MemberProperty,
    Getter,
    GetterExpression,
    GetterBlock,
    NextParameter,
    MoreParameters,
    ValueType,
    FunctionType,
    NextType,
    MoreTypes,
    Nullable,
    Result,
    FunctionExpression,
    FunctionBraces,
    Contract,
    NextEffect,
    EffectSemicolon,
    Returns,
    ReturnsNotNull,
    CallsInPlace,
    ReturnedLiteral,
    InvocationKind,
    QualifiedKind,
    PlainKind,
    Implies,
    ImpliedName,
    ImpliedCondition,
    NextStatement,
    StatementSemicolon,
    LocalStatement,
    LoopStatement,
    ActionStatement,
    LocalKeyword,
    LocalType,
    LocalValue,
    While,
    DoWhile,
    For,
    Progression,
    Assigns,
    Counts,
    InnerBlock,
    InnerLoop,
    InnerAction,
    Or,
    And,
    Equal,
    Compare,
    IsType,
    Elvis,
    Sum,
    Product,
    Cast,
    Prefixed,
    NotNull,
    Member,
    SafeMember,
    MemberCall,
    SafeMemberCall,
    NextArgument,
    MoreArguments,
    Int,
    Bool,
    Null,
    This,
    Template,
    Paren,
    Name,
    If,
    When,
    Try,
    Return,
    Throw,
    Jump,
    Operand,
    Call,
    LambdaCall,
    CallLambda,
    TextPiece,
    NamePiece,
    ThisPiece,
    InsertedPiece,
    LambdaParameters,
    MoreLambdaParameters,
    ElsePart,
    Subject,
    SubjectName,
    NextBranch,
    ElseBranch,
    ConditionBranch,
    MoreConditions,
    TypeCondition,
    ValueCondition,
    FinallyAlone,
    FirstCatch,
    NextCatch,
    FinallyPart,
}

/// What an alternative begins with.
#[derive(Clone, Copy)]
pub enum First {
    Just(Terminal),
    /// A terminal that begins an expression.
    Expression,
    /// A word that may stand before a declaration.
    Modifier,
}

/// What a row asks of a token beside its terminal.
#[derive(Clone, Copy)]
pub enum Need {
    Any,
    /// No line end counts before it.
    Clear,
    /// `->`, `,` or `:` follows it.
    Leading,
}

/// A row of a nonterminal: where the next token is such, the production is chosen. `opened_by` is the step that opens it.
#[derive(Clone, Copy)]
pub struct Row {
    pub first: First,
    pub need: Need,
    pub production: Production,
    pub opened_by: u8,
}

/// A step of reading that takes at most one token.
#[derive(Clone, Copy)]
pub enum Step {
    /// Takes a token with this terminal.
    Take(Terminal),
    /// Takes a token with this terminal and keeps it as a phrase.
    Keep(Terminal),
    /// Takes the token by which the row was chosen and keeps it.
    KeepChosen,
    /// Asks for a line end, `;` or `}`.
    Separated,
    /// Asks that the next token is another than this one.
    Exclude(Terminal),
    /// Opens a part that counts for the depth.
    Enter,
    Leave,
    /// Makes one phrase of so many that were read last.
    Make(Form, usize),
    /// Puts the last phrase into the one before it, which is a list.
    Add,
    /// Makes the last phrase what is assigned, which is no tree where it is a name or a member behind `.`.
    Target,
}

#[derive(Clone, Copy)]
pub enum Symbol {
    Do(Step),
    Part(Nonterminal),
}
