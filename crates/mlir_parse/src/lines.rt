ghost use Rattle.std.specs.Prelude.{◌≡◌, IfOk};
ghost use Rattle.mlir_ir.specs.Grammar as grammar;
ghost use Rattle.mlir_ir.specs.declared.syntax.Form.{Form};
ghost use Rattle.mlir_parse.specs.Seen.{seen, AreLines};

use crate::rule::Rule::{Line, Nothing, One};
use crate::rule::{Rule, put_sets};
use mlir_ir::{Form, Terminal};
use std::alloc::{AllocError, Global};

/// The first rule or the second.
fn either(alloc: Global, first: Rule, second: Rule) -> Result<Rule, AllocError>
    ensures { IfOk result (λ rule. seen rule ≡ grammar.either (seen first) (seen second)) }
{
    Ok(Rule::Either(0, Box::new(alloc, first)?, Box::new(alloc, second)?))
}

/// The rule, or no tokens.
fn maybe(alloc: Global, rule: Rule) -> Result<Rule, AllocError>
    ensures { IfOk result (λ made. seen made ≡ grammar.maybe (seen rule)) }
{
    either(alloc, rule, Nothing)
}

/// The rule any number of times.
fn many(alloc: Global, rule: Rule) -> Result<Rule, AllocError>
    ensures { IfOk result (λ made. seen made ≡ grammar.many (seen rule)) }
{
    Ok(Rule::Many(0, Box::new(alloc, rule)?))
}

/// A region with the rule inside its braces.
fn region(alloc: Global, rule: Rule) -> Result<Rule, AllocError>
    ensures { IfOk result (λ made. seen made ≡ grammar.region (seen rule)) }
{
    Ok(Rule::Region(Box::new(alloc, rule)?))
}

/// `"arith.constant" (["-"] Number ":" type | "true" | "false")`
fn constant_kind(alloc: Global) -> Result<Rule, AllocError>
    ensures { IfOk result (λ rule. seen rule ≡ grammar.constant_kind) }
{
    One(Terminal::Constant).then(
        alloc,
        either(
            alloc,
            maybe(alloc, One(Terminal::Minus))?
                .then(
                    alloc,
                    either(alloc, One(Terminal::Decimal), One(Terminal::Hexadecimal))?,
                )?
                .then(alloc, One(Terminal::Colon))?
                .then(alloc, Line(Form::TypeName))?,
            One(Terminal::Truth),
        )?,
    )
}

/// `BINARY use "," use ":" type`
fn binary_kind(alloc: Global) -> Result<Rule, AllocError>
    ensures { IfOk result (λ rule. seen rule ≡ grammar.binary_kind) }
{
    One(Terminal::Binary)
        .then(alloc, Line(Form::Use))?
        .then(alloc, One(Terminal::Comma))?
        .then(alloc, Line(Form::Use))?
        .then(alloc, One(Terminal::Colon))?
        .then(alloc, Line(Form::TypeName))
}

/// `BINARY use "," use [flags] ":" type`
fn flagged_binary_kind(alloc: Global) -> Result<Rule, AllocError>
    ensures { IfOk result (λ rule. seen rule ≡ grammar.flagged_binary_kind) }
{
    One(Terminal::FlaggedBinary)
        .then(alloc, Line(Form::Use))?
        .then(alloc, One(Terminal::Comma))?
        .then(alloc, Line(Form::Use))?
        .then(alloc, maybe(alloc, Line(Form::Flags))?)?
        .then(alloc, One(Terminal::Colon))?
        .then(alloc, Line(Form::TypeName))
}

/// `CAST use ":" type "to" type`
fn cast_kind(alloc: Global) -> Result<Rule, AllocError>
    ensures { IfOk result (λ rule. seen rule ≡ grammar.cast_kind) }
{
    One(Terminal::Cast)
        .then(alloc, Line(Form::Use))?
        .then(alloc, One(Terminal::Colon))?
        .then(alloc, Line(Form::TypeName))?
        .then(alloc, One(Terminal::To))?
        .then(alloc, Line(Form::TypeName))
}

/// `CAST use [flags] ":" type "to" type`
fn flagged_cast_kind(alloc: Global) -> Result<Rule, AllocError>
    ensures { IfOk result (λ rule. seen rule ≡ grammar.flagged_cast_kind) }
{
    One(Terminal::FlaggedCast)
        .then(alloc, Line(Form::Use))?
        .then(alloc, maybe(alloc, Line(Form::Flags))?)?
        .then(alloc, One(Terminal::Colon))?
        .then(alloc, Line(Form::TypeName))?
        .then(alloc, One(Terminal::To))?
        .then(alloc, Line(Form::TypeName))
}

/// `"arith.cmpi" PRED "," use "," use ":" type`
fn compare_kind(alloc: Global) -> Result<Rule, AllocError>
    ensures { IfOk result (λ rule. seen rule ≡ grammar.compare_kind) }
{
    One(Terminal::Compare)
        .then(alloc, One(Terminal::Predicate))?
        .then(alloc, One(Terminal::Comma))?
        .then(alloc, Line(Form::Use))?
        .then(alloc, One(Terminal::Comma))?
        .then(alloc, Line(Form::Use))?
        .then(alloc, One(Terminal::Colon))?
        .then(alloc, Line(Form::TypeName))
}

/// `"arith.select" use "," use "," use ":" type`
fn select_kind(alloc: Global) -> Result<Rule, AllocError>
    ensures { IfOk result (λ rule. seen rule ≡ grammar.select_kind) }
{
    One(Terminal::Select)
        .then(alloc, Line(Form::Use))?
        .then(alloc, One(Terminal::Comma))?
        .then(alloc, Line(Form::Use))?
        .then(alloc, One(Terminal::Comma))?
        .then(alloc, Line(Form::Use))?
        .then(alloc, One(Terminal::Colon))?
        .then(alloc, Line(Form::TypeName))
}

/// `("call" | "func.call") Symbol "(" [uses] ")" ":" "(" [types] ")" "->" results`
fn call_kind(alloc: Global) -> Result<Rule, AllocError>
    ensures { IfOk result (λ rule. seen rule ≡ grammar.call_kind) }
{
    One(Terminal::Call)
        .then(alloc, One(Terminal::Symbol))?
        .then(alloc, One(Terminal::LeftParen))?
        .then(alloc, maybe(alloc, Line(Form::Uses))?)?
        .then(alloc, One(Terminal::RightParen))?
        .then(alloc, One(Terminal::Colon))?
        .then(alloc, One(Terminal::LeftParen))?
        .then(alloc, maybe(alloc, Line(Form::Types))?)?
        .then(alloc, One(Terminal::RightParen))?
        .then(alloc, One(Terminal::Arrow))?
        .then(alloc, Line(Form::Results))
}

/// `"scf.if" use ["->" results] region ["else" region]`
fn if_kind(alloc: Global) -> Result<Rule, AllocError>
    ensures { IfOk result (λ rule. seen rule ≡ grammar.if_kind) }
{
    One(Terminal::If)
        .then(alloc, Line(Form::Use))?
        .then(
            alloc,
            maybe(
                alloc,
                One(Terminal::Arrow).then(alloc, Line(Form::Results))?,
            )?,
        )?
        .then(alloc, Line(Form::Region))?
        .then(
            alloc,
            maybe(alloc, One(Terminal::Else).then(alloc, Line(Form::Region))?)?,
        )
}

/// `"scf.for" Value "=" use "to" use "step" use`, `["iter_args" "(" inits ")" "->" results] [":" type] region`
fn for_kind(alloc: Global) -> Result<Rule, AllocError>
    ensures { IfOk result (λ rule. seen rule ≡ grammar.for_kind) }
{
    One(Terminal::For)
        .then(alloc, One(Terminal::Value))?
        .then(alloc, One(Terminal::Equals))?
        .then(alloc, Line(Form::Use))?
        .then(alloc, One(Terminal::To))?
        .then(alloc, Line(Form::Use))?
        .then(alloc, One(Terminal::Step))?
        .then(alloc, Line(Form::Use))?
        .then(
            alloc,
            maybe(
                alloc,
                One(Terminal::IterArgs)
                    .then(alloc, One(Terminal::LeftParen))?
                    .then(alloc, Line(Form::Inits))?
                    .then(alloc, One(Terminal::RightParen))?
                    .then(alloc, One(Terminal::Arrow))?
                    .then(alloc, Line(Form::Results))?,
            )?,
        )?
        .then(
            alloc,
            maybe(
                alloc,
                One(Terminal::Colon).then(alloc, Line(Form::TypeName))?,
            )?,
        )?
        .then(alloc, Line(Form::Region))
}

/// `"{" {op} "scf.condition" "(" use ")" [ends] "}"`
fn before_region(alloc: Global) -> Result<Rule, AllocError>
    ensures { IfOk result (λ rule. seen rule ≡ grammar.before_region) }
{
    region(
        alloc,
        many(alloc, Line(Form::Op))?
            .then(alloc, One(Terminal::Condition))?
            .then(alloc, One(Terminal::LeftParen))?
            .then(alloc, Line(Form::Use))?
            .then(alloc, One(Terminal::RightParen))?
            .then(alloc, maybe(alloc, Line(Form::Ends))?)?,
    )
}

/// `"{" [Caret ["(" params ")"] ":"] {op} "scf.yield" [ends] "}"`
fn after_region(alloc: Global) -> Result<Rule, AllocError>
    ensures { IfOk result (λ rule. seen rule ≡ grammar.after_region) }
{
    region(
        alloc,
        maybe(
            alloc,
            One(Terminal::Caret)
                .then(
                    alloc,
                    maybe(
                        alloc,
                        One(Terminal::LeftParen)
                            .then(alloc, Line(Form::Params))?
                            .then(alloc, One(Terminal::RightParen))?,
                    )?,
                )?
                .then(alloc, One(Terminal::Colon))?,
        )?
        .then(alloc, many(alloc, Line(Form::Op))?)?
        .then(alloc, One(Terminal::Yield))?
        .then(alloc, maybe(alloc, Line(Form::Ends))?)?,
    )
}

/// `"scf.while" ["(" inits ")"] ":" "(" [types] ")" "->" results`, its regions with `"do"` between
fn while_kind(alloc: Global) -> Result<Rule, AllocError>
    ensures { IfOk result (λ rule. seen rule ≡ grammar.while_kind) }
{
    One(Terminal::While)
        .then(
            alloc,
            maybe(
                alloc,
                One(Terminal::LeftParen)
                    .then(alloc, Line(Form::Inits))?
                    .then(alloc, One(Terminal::RightParen))?,
            )?,
        )?
        .then(alloc, One(Terminal::Colon))?
        .then(alloc, One(Terminal::LeftParen))?
        .then(alloc, maybe(alloc, Line(Form::Types))?)?
        .then(alloc, One(Terminal::RightParen))?
        .then(alloc, One(Terminal::Arrow))?
        .then(alloc, Line(Form::Results))?
        .then(alloc, before_region(alloc)?)?
        .then(alloc, One(Terminal::Do))?
        .then(alloc, after_region(alloc)?)
}

/// `text = func {func} | "module" [Symbol] "{" {func} "}" | (nothing)`
fn whole_line(alloc: Global) -> Result<Rule, AllocError>
    ensures { IfOk result (λ rule. seen rule ≡ grammar.body Form.Whole) }
{
    maybe(
        alloc,
        either(
            alloc,
            Line(Form::Func).then(alloc, many(alloc, Line(Form::Func))?)?,
            One(Terminal::Module)
                .then(alloc, maybe(alloc, One(Terminal::Symbol))?)?
                .then(alloc, One(Terminal::LeftBrace))?
                .then(alloc, many(alloc, Line(Form::Func))?)?
                .then(alloc, One(Terminal::RightBrace))?,
        )?,
    )
}

/// `func = "func.func" ["private"] Symbol "("`, then `types ")" ["->" results]` or `[params] ")" ["->" results] [body]`
fn func_line(alloc: Global) -> Result<Rule, AllocError>
    ensures { IfOk result (λ rule. seen rule ≡ grammar.body Form.Func) }
{
    One(Terminal::Function)
        .then(alloc, maybe(alloc, One(Terminal::Private))?)?
        .then(alloc, One(Terminal::Symbol))?
        .then(alloc, One(Terminal::LeftParen))?
        .then(
            alloc,
            either(
                alloc,
                Line(Form::Types)
                    .then(alloc, One(Terminal::RightParen))?
                    .then(
                        alloc,
                        maybe(
                            alloc,
                            One(Terminal::Arrow).then(alloc, Line(Form::Results))?,
                        )?,
                    )?,
                maybe(alloc, Line(Form::Params))?
                    .then(alloc, One(Terminal::RightParen))?
                    .then(
                        alloc,
                        maybe(
                            alloc,
                            One(Terminal::Arrow).then(alloc, Line(Form::Results))?,
                        )?,
                    )?
                    .then(alloc, maybe(alloc, Line(Form::Body))?)?,
            )?,
        )
}

/// `params = Value ":" type {"," Value ":" type}`
fn params_line(alloc: Global) -> Result<Rule, AllocError>
    ensures { IfOk result (λ rule. seen rule ≡ grammar.body Form.Params) }
{
    One(Terminal::Value)
        .then(alloc, One(Terminal::Colon))?
        .then(alloc, Line(Form::TypeName))?
        .then(
            alloc,
            many(
                alloc,
                One(Terminal::Comma)
                    .then(alloc, One(Terminal::Value))?
                    .then(alloc, One(Terminal::Colon))?
                    .then(alloc, Line(Form::TypeName))?,
            )?,
        )
}

/// `types = type {"," type}`
fn types_line(alloc: Global) -> Result<Rule, AllocError>
    ensures { IfOk result (λ rule. seen rule ≡ grammar.body Form.Types) }
{
    Line(Form::TypeName).then(
        alloc,
        many(
            alloc,
            One(Terminal::Comma).then(alloc, Line(Form::TypeName))?,
        )?,
    )
}

/// `results = type | "(" [types] ")"`
fn results_line(alloc: Global) -> Result<Rule, AllocError>
    ensures { IfOk result (λ rule. seen rule ≡ grammar.body Form.Results) }
{
    either(
        alloc,
        Line(Form::TypeName),
        One(Terminal::LeftParen)
            .then(alloc, maybe(alloc, Line(Form::Types))?)?
            .then(alloc, One(Terminal::RightParen))?,
    )
}

/// `type = "index" | "i1" to "i64"`
fn type_name_line(alloc: Global) -> Result<Rule, AllocError>
    ensures { IfOk result (λ rule. seen rule ≡ grammar.body Form.TypeName) }
{
    Ok(One(Terminal::TypeWord))
}

/// `body = "{" {op} ("return" | "func.return") [ends] "}"`
fn body_line(alloc: Global) -> Result<Rule, AllocError>
    ensures { IfOk result (λ rule. seen rule ≡ grammar.body Form.Body) }
{
    region(
        alloc,
        many(alloc, Line(Form::Op))?
            .then(alloc, One(Terminal::Return))?
            .then(alloc, maybe(alloc, Line(Form::Ends))?)?,
    )
}

/// `ends = uses ":" types`
fn ends_line(alloc: Global) -> Result<Rule, AllocError>
    ensures { IfOk result (λ rule. seen rule ≡ grammar.body Form.Ends) }
{
    Line(Form::Uses)
        .then(alloc, One(Terminal::Colon))?
        .then(alloc, Line(Form::Types))
}

/// `uses = use {"," use}`
fn uses_line(alloc: Global) -> Result<Rule, AllocError>
    ensures { IfOk result (λ rule. seen rule ≡ grammar.body Form.Uses) }
{
    Line(Form::Use).then(
        alloc,
        many(alloc, One(Terminal::Comma).then(alloc, Line(Form::Use))?)?,
    )
}

/// `use = Value [Pick]`
fn use_line(alloc: Global) -> Result<Rule, AllocError>
    ensures { IfOk result (λ rule. seen rule ≡ grammar.body Form.Use) }
{
    One(Terminal::Value).then(alloc, maybe(alloc, One(Terminal::Pick))?)
}

/// `op = [pack {"," pack} "="] kind`
fn op_line(alloc: Global) -> Result<Rule, AllocError>
    ensures { IfOk result (λ rule. seen rule ≡ grammar.body Form.Op) }
{
    maybe(
        alloc,
        Line(Form::Pack)
            .then(
                alloc,
                many(alloc, One(Terminal::Comma).then(alloc, Line(Form::Pack))?)?,
            )?
            .then(alloc, One(Terminal::Equals))?,
    )?
    .then(alloc, Line(Form::Kind))
}

/// `pack = Value [":" Number]`
fn pack_line(alloc: Global) -> Result<Rule, AllocError>
    ensures { IfOk result (λ rule. seen rule ≡ grammar.body Form.Pack) }
{
    One(Terminal::Value).then(
        alloc,
        maybe(
            alloc,
            One(Terminal::Colon).then(alloc, One(Terminal::Decimal))?,
        )?,
    )
}

/// `kind = constant_kind | binary_kind | .. | while_kind`
fn kind_line(alloc: Global) -> Result<Rule, AllocError>
    ensures { IfOk result (λ rule. seen rule ≡ grammar.body Form.Kind) }
{
    either(
        alloc,
        constant_kind(alloc)?,
        either(
            alloc,
            binary_kind(alloc)?,
            either(
                alloc,
                flagged_binary_kind(alloc)?,
                either(
                    alloc,
                    cast_kind(alloc)?,
                    either(
                        alloc,
                        flagged_cast_kind(alloc)?,
                        either(
                            alloc,
                            compare_kind(alloc)?,
                            either(
                                alloc,
                                select_kind(alloc)?,
                                either(
                                    alloc,
                                    call_kind(alloc)?,
                                    either(
                                        alloc,
                                        if_kind(alloc)?,
                                        either(alloc, for_kind(alloc)?, while_kind(alloc)?)?,
                                    )?,
                                )?,
                            )?,
                        )?,
                    )?,
                )?,
            )?,
        )?,
    )
}

/// `inits = Value "=" use {"," Value "=" use}`
fn inits_line(alloc: Global) -> Result<Rule, AllocError>
    ensures { IfOk result (λ rule. seen rule ≡ grammar.body Form.Inits) }
{
    One(Terminal::Value)
        .then(alloc, One(Terminal::Equals))?
        .then(alloc, Line(Form::Use))?
        .then(
            alloc,
            many(
                alloc,
                One(Terminal::Comma)
                    .then(alloc, One(Terminal::Value))?
                    .then(alloc, One(Terminal::Equals))?
                    .then(alloc, Line(Form::Use))?,
            )?,
        )
}

/// `region = "{" {op} ["scf.yield" [ends]] "}"`
fn region_line(alloc: Global) -> Result<Rule, AllocError>
    ensures { IfOk result (λ rule. seen rule ≡ grammar.body Form.Region) }
{
    region(
        alloc,
        many(alloc, Line(Form::Op))?.then(
            alloc,
            maybe(
                alloc,
                One(Terminal::Yield).then(alloc, maybe(alloc, Line(Form::Ends))?)?,
            )?,
        )?,
    )
}

/// `flags = "overflow" "<" ("nsw" ["," "nuw"] | "nuw" ["," "nsw"]) ">"`
fn flags_line(alloc: Global) -> Result<Rule, AllocError>
    ensures { IfOk result (λ rule. seen rule ≡ grammar.body Form.Flags) }
{
    One(Terminal::Overflow)
        .then(alloc, One(Terminal::Less))?
        .then(
            alloc,
            either(
                alloc,
                One(Terminal::Nsw).then(
                    alloc,
                    maybe(alloc, One(Terminal::Comma).then(alloc, One(Terminal::Nuw))?)?,
                )?,
                One(Terminal::Nuw).then(
                    alloc,
                    maybe(alloc, One(Terminal::Comma).then(alloc, One(Terminal::Nsw))?)?,
                )?,
            )?,
        )?
        .then(alloc, One(Terminal::Greater))
}

/// The right-hand sides of all productions, in the order of the forms.
#[tactic(auto, using(crate::proofs::Table::lines_are))]
pub fn lines(alloc: Global) -> Result<Vec<Rule>, AllocError>
    ensures { IfOk result (λ rules. AreLines rules.items) }
{
    let mut whole_rule = whole_line(alloc)?;
    put_sets(&mut whole_rule);
    let mut func_rule = func_line(alloc)?;
    put_sets(&mut func_rule);
    let mut params_rule = params_line(alloc)?;
    put_sets(&mut params_rule);
    let mut types_rule = types_line(alloc)?;
    put_sets(&mut types_rule);
    let mut results_rule = results_line(alloc)?;
    put_sets(&mut results_rule);
    let mut type_name_rule = type_name_line(alloc)?;
    put_sets(&mut type_name_rule);
    let mut body_rule = body_line(alloc)?;
    put_sets(&mut body_rule);
    let mut ends_rule = ends_line(alloc)?;
    put_sets(&mut ends_rule);
    let mut uses_rule = uses_line(alloc)?;
    put_sets(&mut uses_rule);
    let mut use_rule = use_line(alloc)?;
    put_sets(&mut use_rule);
    let mut op_rule = op_line(alloc)?;
    put_sets(&mut op_rule);
    let mut pack_rule = pack_line(alloc)?;
    put_sets(&mut pack_rule);
    let mut kind_rule = kind_line(alloc)?;
    put_sets(&mut kind_rule);
    let mut inits_rule = inits_line(alloc)?;
    put_sets(&mut inits_rule);
    let mut region_rule = region_line(alloc)?;
    put_sets(&mut region_rule);
    let mut flags_rule = flags_line(alloc)?;
    put_sets(&mut flags_rule);
    let mut rules = Vec::new(alloc);
    rules.push(Nothing)?;
    rules.push(whole_rule)?;
    rules.push(func_rule)?;
    rules.push(params_rule)?;
    rules.push(types_rule)?;
    rules.push(results_rule)?;
    rules.push(type_name_rule)?;
    rules.push(body_rule)?;
    rules.push(ends_rule)?;
    rules.push(uses_rule)?;
    rules.push(use_rule)?;
    rules.push(op_rule)?;
    rules.push(pack_rule)?;
    rules.push(kind_rule)?;
    rules.push(inits_rule)?;
    rules.push(region_rule)?;
    rules.push(flags_rule)?;
    Ok(rules)
}
